// What a frame is, and the number by which the ledger stores it: that of model's kind_number.
ghost use Rattle.std.specs.Prelude.{◌≡◌};
ghost use Rattle.ledger.specs.Kinds.{kind_code, known_kind, draining as draining_of};

#[derive(Clone, Copy, PartialEq, Eq)]
pub enum Kind {
    Monitor,
    Free,
    Table,
    DrainingTable,
    Page,
    DrainingPage,
}

// The numbers, as the variants are numbered from 0 on; Monitor's is 0, and every other number reads as Monitor does.
const FREE: u64 = 1;

const TABLE: u64 = 2;

const DRAINING_TABLE: u64 = 3;

const PAGE: u64 = 4;

const DRAINING_PAGE: u64 = 5;

// The height of a root table; where the pages are it is 0.
pub const ROOT_HEIGHT: u64 = 3;

impl From<Kind> for u64 {
    ghost from_gives = { λ kind number. number ≡ kind_code kind };

    fn from(kind: Kind) -> u64 {
        kind as u64
    }
}

// A number that stands for no kind reads as the monitor's.
impl From<u64> for Kind {
    ghost from_gives = { λ number kind. kind_code kind ≡ known_kind number };

    fn from(number: u64) -> Kind {
        match number {
            FREE => Kind::Free,
            TABLE => Kind::Table,
            DRAINING_TABLE => Kind::DrainingTable,
            PAGE => Kind::Page,
            DRAINING_PAGE => Kind::DrainingPage,
            _ => Kind::Monitor,
        }
    }
}

impl Kind {
    // What a table or a page is when it drains.
    pub fn draining(self) -> Kind
        ensures { kind_code result ≡ draining_of (kind_code self) }
    {
        match self {
            Kind::Table => Kind::DrainingTable,
            _ => Kind::DrainingPage,
        }
    }
}

// The same by number.
// Stays: docs/assurance/functions.md names it, and it answers for every number (`draining` of specs/Kinds).
pub fn draining(kind: u64) -> u64
    ensures { result ≡ draining_of kind }
{
    u64::from(Kind::from(kind).draining())
}
