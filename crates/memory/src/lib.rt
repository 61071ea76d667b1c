// Memory as a slice of bytes: the 64-bit word at a place, read and stored, lowest byte first; a part cleared.
// And which frames from which address on RAM can have.
#![tactic(auto)]

ghost use Rattle.std.specs.Prelude.{◌≡◌, ◌+◌, ◌<◌, ◌≤◌, ◌%◌, length};
ghost use Rattle.memory.specs.Word.{word_at, stored_at, cleared_at};
ghost use Rattle.memory.specs.Ram.{ram_fits};

// Document 01, section 1.
pub const FRAME_BYTES: u64 = 4096;

pub const FEWEST_FRAMES: u64 = 16;

pub const MOST_FRAMES: u64 = 65536;

pub const ADDRESS_END: u64 = 0x1000000000000;

// Whether RAM of `frames` frames from physical address `base` on is one that document 01, section 1 describes.
#[tactic(auto, unfolding(crate::specs::Ram::ram_fits))]
pub fn ram_fits(base: u64, frames: u64) -> bool
    ensures { result ≡ ram_fits base frames }
{
    // base + FRAME_BYTES * frames need not fit 64 bits
    FEWEST_FRAMES <= frames
        && frames <= MOST_FRAMES
        && base % FRAME_BYTES == 0
        && base <= ADDRESS_END - FRAME_BYTES * frames
}

// The word at the start of m. The places are constants: it compiles to one load.
#[tactic(auto, unfolding(crate::specs::Word::word_at))]
fn first_word(m: &[u8]) -> u64
    requires { 8 ≤ length m.now }
    ensures { result ≡ word_at m.now 0 }
{
    u64::from_le_bytes([m[0], m[1], m[2], m[3], m[4], m[5], m[6], m[7]])
}

pub fn word(m: &[u8], at: usize) -> u64
    requires { at + 8 ≤ length m.now }
    ensures { result ≡ word_at m.now at }
{
    first_word(&m[at..])
}

// Byte by byte: the loop compiles to one store.
// Stays: `copy_from_slice` asks at run time whether its two parts overlap, and what LLVM makes of this function alone has then more
// stores than one (`release_words` of build asks for one); of a write through `as_mut_array` no proof knows what the slice has after it.
pub fn store_word(m: &mut [u8], at: usize, v: u64)
    requires { at + 8 ≤ length m.old }
    ensures { m.new ≡ stored_at m.old at v }
{
    for (i, byte) in v.to_le_bytes().iter().enumerate() {
        m[at + i] = *byte;
    }
}

// n bytes from `at` on become 0.
pub fn clear(m: &mut [u8], at: usize, n: usize)
    requires { at + n ≤ length m.old }
    ensures { m.new ≡ cleared_at m.old at n }
{
    m[at..at + n].fill(0);
}
