// Document 03, section 2: the refusals, by the names of include/pageledger.h, and their numbers.
ghost use Rattle.std.specs.Prelude.{◌≡◌};
ghost use Rattle.monitor_contract.specs.Refusals.{Tested, refusal_number, answer_number};

// What is answered where nothing is refused.
pub const DONE: u64 = 0;

// Why an operation is refused.
#[derive(Clone, Copy, PartialEq, Eq)]
pub enum Refusal {
    NoGuestNumber = 1,
    GuestExists = 2,
    NoFreeFrames = 3,
    NoFrame = 4,
    NoGuest = 5,
    NotFree = 6,
    NoPageAddress = 7,
    NoRights = 8,
    NotItsPage = 9,
    MappedAlready = 10,
    NotMapped = 11,
    WithItself = 12,
    StillUsed = 13,
    Dirty = 14,
}

impl From<Refusal> for u64 {
    ghost from_gives = { λ refusal number. number ≡ refusal_number refusal };

    fn from(refusal: Refusal) -> u64 {
        refusal as u64
    }
}

// The number of an answer, as C is told it.
pub fn number(answer: Result<(), Refusal>) -> u64
    ensures { result ≡ answer_number answer }
{
    match answer {
        Ok(()) => DONE,
        Err(refusal) => u64::from(refusal),
    }
}

// Goes on where a test holds, and refuses where it fails.
pub fn demand(holds: bool, refusal: Refusal) -> Result<(), Refusal>
    ensures { Tested holds refusal result }
{
    if holds { Ok(()) } else { Err(refusal) }
}
