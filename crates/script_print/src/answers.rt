// A walk's answer as text.
ghost use Rattle.std.specs.Prelude.{◌≡◌, ◌+◌, ◌≤◌, length};
ghost use Rattle.script_text.specs.Wrote.{Wrote};
ghost use Rattle.script_print.specs.Answer.{name_bytes, fault_bytes, during_bytes, fetched_bytes, answer_bytes, kind_text, fault_text, fetched_text, during_text, answer_text};

use script_text::digits::{put, put_field, put_hex};
use walk::{Answer, FaultKind};
use walk_descriptor::Stage;

// A fault by its name.
#[tactic(auto, unfolding(crate::specs::Answer::kind_text))]
fn kind_text(k: FaultKind) -> &'static [u8]
    ensures text { result.now ≡ kind_text k }
    ensures short { length result.now ≤ name_bytes }
{
    match k {
        FaultKind::WalkAbort => b"WALK_ABORT",
        FaultKind::Translation => b"TRANSLATION",
        FaultKind::NotModelled => b"NOT_MODELLED",
        FaultKind::AccessFlag => b"ACCESS_FLAG",
        FaultKind::Permission => b"PERMISSION",
    }
}

#[tactic(auto, unfolding(crate::specs::Answer::fault_text))]
// Stays: the stage is a number, as `walk::Answer` has it.
fn put_fault(out: &mut [u8], at: usize, k: FaultKind, stage: u64, level: u64) -> usize
    requires { at + fault_bytes ≤ length out.old }
    ensures { Wrote fault_bytes out.old at out.new result (fault_text k stage level) }
{
    let a = put(out, at, kind_text(k));
    let b = put_field(out, a, b" stage ", stage);
    put_field(out, b, b" level ", level)
}

#[tactic(auto, unfolding(crate::specs::Answer::fetched_text))]
fn put_fetched(out: &mut [u8], at: usize, fetched: u64) -> usize
    requires { at + fetched_bytes ≤ length out.old }
    ensures { Wrote fetched_bytes out.old at out.new result (fetched_text fetched) }
{
    put_field(out, at, b" fetched ", fetched)
}

// A fault of stage 2 while stage 1 was at level `of`.
fn put_during(out: &mut [u8], at: usize, k: FaultKind, level: u64, of: u64) -> usize
    requires { at + during_bytes ≤ length out.old }
    ensures { Wrote during_bytes out.old at out.new result (during_text k level of) }
{
    let next = put_fault(out, at, k, Stage::Two as u64, level);
    put_field(out, next, b" during stage 1 level ", of)
}

#[tactic(auto, unfolding(crate::specs::Answer::answer_text))]
pub fn put_answer(out: &mut [u8], at: usize, a: Answer) -> usize
    requires { at + answer_bytes ≤ length out.old }
    ensures { Wrote answer_bytes out.old at out.new result (answer_text a) }
{
    match a {
        Answer::Found { address, fetched } => {
            let next = put_hex(out, at, address);
            put_fetched(out, next, fetched)
        }
        Answer::Fault {
            kind,
            stage,
            level,
            fetched,
        } => {
            let next = put_fault(out, at, kind, stage, level);
            put_fetched(out, next, fetched)
        }
        Answer::During {
            kind,
            level,
            of,
            fetched,
        } => {
            let next = put_during(out, at, kind, level, of);
            put_fetched(out, next, fetched)
        }
        Answer::Refused => put(out, at, b"REFUSED"),
    }
}
