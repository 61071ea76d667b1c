// A reply as a line of text, at the start of a slice that the caller lends.
// Stays: put_.. and no Display, as in script_print.
ghost use Rattle.std.specs.Prelude.{◌≡◌, true, ◌+◌, ◌*◌, ◌≤◌, length};
ghost use Rattle.script_text.specs.Wrote.{Wrote};
ghost use Rattle.ledger.specs.Layout.{state_of};
ghost use Rattle.script_machine.specs.Printable.{Printable};
ghost use Rattle.script_machine.specs.Machine.{MachineSound, ram_of, ledger_of};
ghost use Rattle.script_print.specs.Answer.{name_bytes};
ghost use Rattle.script_print.specs.Frame.{frame_text_bytes, line_bytes};
ghost use Rattle.script.specs.Printed.{reply_bytes, mistake_bytes, printed_bytes, reason_text, reply_text, mistake_text};
ghost use Rattle.script_machine.specs.declared.Reply.TheVariants.{Frame, Ledger};
ghost use Rattle.script_text.specs.Text.{ascii};

use script_language::Reason;
use script_machine::{Machine, Reply};
use script_print::answers::put_answer;
use script_print::frames::{put_frame, put_ledger};
use script_print::guests::put_guest;
use script_text::digits::{put, put_decimal, put_word};

// A reason in words.
#[tactic(auto, unfolding(crate::specs::Printed::reason_text))]
fn reason_text(why: Reason) -> &'static [u8]
    ensures text { result.now ≡ reason_text why }
    ensures short { length result.now ≤ name_bytes }
{
    match why {
        Reason::UnknownCommand => b"unknown command",
        Reason::TooFewWords => b"too few words",
        Reason::TooManyWords => b"too many words",
        Reason::NumberExpected => b"number expected",
        Reason::NumberTooLarge => b"number too large",
        Reason::AccessExpected => b"access is r, w or x",
        Reason::LevelExpected => b"level is el0 or el1",
        Reason::NotText => b"not text",
        Reason::LineTooLong => b"line too long",
    }
}

// A reply's line, with its end; the whole ledger has a line for each frame.
#[tactic(auto, unfolding(crate::specs::Printed::reply_text))]
pub fn put_reply(out: &mut [u8], reply: Reply, m: Machine, ram: &[u8], ledger: &[u32]) -> usize
    requires { (MachineSound m ram.now ledger.now) × (Printable m reply) × (printed_bytes m ≤ length out.old) }
    ensures { Wrote (printed_bytes m) out.old 0 out.new result
        (reply_text (state_of (ram_of m ram.now) (ledger_of m ledger.now)) reply) }
{
    let end = match reply {
        Reply::Done => put(out, 0, b"ok"),
        Reply::OutsideRam => put(out, 0, b"refused"),
        Reply::Number(n) => put_decimal(out, 0, n),
        Reply::Contents(v) => put_word(out, 0, v),
        Reply::Walked(a) => put_answer(out, 0, a),
        Reply::Frame(f) => put_frame(out, 0, m.ram(ram), m.ledger(ledger), f),
        Reply::Guest(g) => put_guest(out, 0, g),
        Reply::Ledger => return put_ledger(out, 0, m.ram(ram), m.ledger(ledger)),
        Reply::SetupNeeded => put(out, 0, b"error: setup needed"),
    };
    put(out, end, b"\n")
}

// Why a line can't be read.
#[tactic(auto, unfolding(crate::specs::Printed::mistake_text))]
pub fn put_mistake(out: &mut [u8], why: Reason) -> usize
    requires { reply_bytes ≤ length out.old }
    ensures { Wrote mistake_bytes out.old 0 out.new result (mistake_text why) }
{
    let at = put(out, 0, b"error: ");
    let end = put(out, at, reason_text(why));
    put(out, end, b"\n")
}
