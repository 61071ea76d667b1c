// An answer as numbers at the start of a lent array: seven of a walk, three of a frame or a guest. Every function that tells one answers
// SHORT, and writes nothing, where the array has no room for it; otherwise DONE.
#![tactic(auto)]

ghost use Rattle.std.specs.Prelude.{◌≡◌};
ghost use Rattle.c_answers.specs.Numbers.{answer_numbers, frame_numbers, guest_numbers};
ghost use Rattle.c_answers.specs.Answers.{kind_number, walk_places as walk_places_of, state_places as state_places_of, walk_answer, frame_answer, guest_answer, Tells};

use monitor_query::{FrameKind, GuestKind};
use numbers::{
    ACCESS_FLAG, ANSWER_ADDRESS, ANSWER_FETCHED, ANSWER_KIND, ANSWER_LEVEL, ANSWER_NUMBERS,
    ANSWER_OF, ANSWER_STAGE, ANSWER_WHAT, DONE, DURING, FAULT, FOUND, FRAME_DRAINING, FRAME_FREE,
    FRAME_GUEST, FRAME_MONITOR, FRAME_NUMBERS, FRAME_OUTSIDE, FRAME_PAGE, FRAME_PLACES,
    FRAME_TABLE, FRAME_WHAT, GUEST_ABSENT, GUEST_NOBODY, GUEST_NUMBERS, GUEST_PRESENT,
    NOT_MODELLED, PERMISSION, REFUSED, SHORT, TRANSLATION, WALK_ABORT,
};
use walk::{Answer, FaultKind};
use walk_descriptor::Stage;

mod numbers;

// Stays: C's numbers, which differ from the enum's own. `From<FaultKind> for u64` would be an impl of another crate's trait for another
// crate's types, which the orphan rule forbids.
fn number_of_kind(kind: FaultKind) -> u64
    ensures { result ≡ kind_number kind }
{
    match kind {
        FaultKind::WalkAbort => WALK_ABORT,
        FaultKind::Translation => TRANSLATION,
        FaultKind::NotModelled => NOT_MODELLED,
        FaultKind::AccessFlag => ACCESS_FLAG,
        FaultKind::Permission => PERMISSION,
    }
}

// Each number at the place that include/pageledger.h gives it. Stays: by the places' names, so that the proof holds numbers.rt to the
// definitions, as tests/link.py holds it to the header.
fn walk_places(
    what: u64,
    address: u64,
    kind: u64,
    stage: u64,
    level: u64,
    of: u64,
    fetched: u64,
) -> [u64; ANSWER_NUMBERS]
    ensures { result ≡ walk_places_of what address kind stage level of fetched }
{
    let mut numbers = [0; ANSWER_NUMBERS];
    numbers[ANSWER_WHAT] = what;
    numbers[ANSWER_ADDRESS] = address;
    numbers[ANSWER_KIND] = kind;
    numbers[ANSWER_STAGE] = stage;
    numbers[ANSWER_LEVEL] = level;
    numbers[ANSWER_OF] = of;
    numbers[ANSWER_FETCHED] = fetched;
    numbers
}

fn state_places(what: u64, second: u64, third: u64) -> [u64; FRAME_NUMBERS]
    ensures { result ≡ state_places_of what second third }
{
    let mut numbers = [0; FRAME_NUMBERS];
    numbers[FRAME_WHAT] = what;
    numbers[FRAME_GUEST] = second;
    numbers[FRAME_PLACES] = third;
    numbers
}

// A number that an answer does not have is 0.
fn numbers_of_walk(answer: Answer) -> [u64; ANSWER_NUMBERS]
    ensures { result ≡ walk_answer answer }
{
    match answer {
        Answer::Found { address, fetched } => walk_places(FOUND, address, 0, 0, 0, 0, fetched),
        Answer::Fault {
            kind,
            stage,
            level,
            fetched,
        } => walk_places(FAULT, 0, number_of_kind(kind), stage, level, 0, fetched),
        Answer::During {
            kind,
            level,
            of,
            fetched,
        } => {
            let two = Stage::Two as u64;
            walk_places(DURING, 0, number_of_kind(kind), two, level, of, fetched)
        }
        Answer::Refused => walk_places(REFUSED, 0, 0, 0, 0, 0, 0),
    }
}

fn numbers_of_frame(frame: FrameKind) -> [u64; FRAME_NUMBERS]
    ensures { result ≡ frame_answer frame }
{
    match frame {
        FrameKind::Outside => state_places(FRAME_OUTSIDE, 0, 0),
        FrameKind::Monitor => state_places(FRAME_MONITOR, 0, 0),
        FrameKind::Free => state_places(FRAME_FREE, 0, 0),
        FrameKind::Table(guest) => state_places(FRAME_TABLE, guest, 0),
        FrameKind::Draining(guest) => state_places(FRAME_DRAINING, guest, 0),
        FrameKind::Page { owner, mapped } => state_places(FRAME_PAGE, owner, mapped),
    }
}

fn numbers_of_guest(guest: GuestKind) -> [u64; GUEST_NUMBERS]
    ensures { result ≡ guest_answer guest }
{
    match guest {
        GuestKind::Nobody => state_places(GUEST_NOBODY, 0, 0),
        GuestKind::Absent { dirty } => state_places(GUEST_ABSENT, 0, u64::from(dirty)),
        GuestKind::Present { root, dirty } => state_places(GUEST_PRESENT, root, u64::from(dirty)),
    }
}

// Stays: the status is a number, since C is given it (`Tells` of specs/Answers), and so is what numbers.rt has.
fn tell<const N: usize>(out: &mut [u64], numbers: [u64; N]) -> u64
    ensures { Tells N numbers.entry out.old result out.new }
{
    if out.len() < N {
        return SHORT;
    }
    out[..N].copy_from_slice(&numbers);
    DONE
}

// Stays: a function for each kind of answer, which docs/assurance names; the work is tell's.
pub fn tell_walk(out: &mut [u64], answer: Answer) -> u64
    ensures { Tells answer_numbers (walk_answer answer) out.old result out.new }
{
    tell(out, numbers_of_walk(answer))
}

pub fn tell_frame(out: &mut [u64], frame: FrameKind) -> u64
    ensures { Tells frame_numbers (frame_answer frame) out.old result out.new }
{
    tell(out, numbers_of_frame(frame))
}

pub fn tell_guest(out: &mut [u64], guest: GuestKind) -> u64
    ensures { Tells guest_numbers (guest_answer guest) out.old result out.new }
{
    tell(out, numbers_of_guest(guest))
}
