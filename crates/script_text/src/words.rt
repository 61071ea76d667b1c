// A line as text: where its comment starts, and where each word of it starts and ends.
ghost use Rattle.std.specs.Prelude.{◌≡◌, ◌≤◌, length, take, drop};
ghost use Rattle.script_text.specs.Words.{text_of, is_text, is_blank, is_text_byte, after_blanks, WordEnds, same_text};

const TAB: u8 = b'\t';

const DELETE: u8 = 127;

// How many bytes of a line are text: a comment ends it, and so does a carriage return with nothing after it.
pub fn text_end(line: &[u8]) -> usize
    ensures { (result ≤ length line.now) × (take result line.now ≡ text_of line.now) }
{
    let line = line.strip_suffix(b"\r").unwrap_or(line);
    line.iter().position(|&c| c == b'#').unwrap_or(line.len())
}

// A character of ASCII that prints, or a blank.
#[tactic(auto, unfolding(crate::specs::Words::is_text_byte))]
fn is_text_byte(c: u8) -> bool
    ensures { result ≡ is_text_byte c }
{
    c == TAB || (b' '..DELETE).contains(&c)
}

pub fn is_text(s: &[u8]) -> bool
    ensures { result ≡ is_text s.now }
{
    s.iter().all(|&c| is_text_byte(c))
}

#[tactic(auto, unfolding(crate::specs::Words::is_blank))]
fn is_blank(c: u8) -> bool
    ensures { result ≡ is_blank c }
{
    c == b' ' || c == TAB
}

// The first place from `from` on that is no blank, or the end.
// Stays: beside word_end, each one `position` of the other test: a function of both would have a clause on the test.
pub fn word_start(s: &[u8], from: usize) -> usize
    requires { from ≤ length s.now }
    ensures { (result ≤ length s.now) × (drop result s.now ≡ after_blanks (drop from s.now)) }
{
    let rest = &s[from..];
    from + rest
        .iter()
        .position(|&c| !is_blank(c))
        .unwrap_or(rest.len())
}

// The first place from `from` on that is a blank, or the end.
pub fn word_end(s: &[u8], from: usize) -> usize
    requires { from ≤ length s.now }
    ensures { WordEnds s.now from result }
{
    let rest = &s[from..];
    from + rest.iter().position(|&c| is_blank(c)).unwrap_or(rest.len())
}

// What looks a word up goes through this (script_language).
#[tactic(auto, using(crate::proofs::Laws::Scanning::same_bytes))]
pub fn same_text(a: &[u8], b: &[u8]) -> bool
    ensures { result ≡ same_text a.now b.now }
{
    a == b
}
