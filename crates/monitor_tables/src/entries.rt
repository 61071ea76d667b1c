// What stands in a guest's tables, coded and decoded: nothing else knows the bits. Document 03, section 3, last bullet.
// `first` is the number of RAM's first frame in physical memory, b / 4096.
ghost use Rattle.std.specs.Prelude.{◌≡◌, ◌+◌, ◌<◌};
ghost use Rattle.model.specs.State.{page_count};
ghost use Rattle.model.specs.Entry.{entry, to_table, table_entry, page_entry};
ghost use Rattle.model.specs.Operations.{page_address};
ghost use Rattle.monitor_tables.specs.Entries.{ToTable, ToPage, LeadsTo};
ghost use Rattle.monitor_tables.specs.Rights.{ReadsRights};

use memory::{ADDRESS_END, FRAME_BYTES};

// A guest-physical address has 48 bits, so a guest has 2^36 pages, and so has physical memory.
const PAGE_COUNT: u64 = 0x1000000000;

// An entry that leads nowhere.
pub const EMPTY: u64 = 0;
// "A table entry is the table's address plus 3."
const TABLE_BITS: u64 = 3;
// "bits 1..0 = 3, 1 in bits 2 to 5, bit 6 as read, bit 7 as write, 1 in bits 8, 9 and 10, [..] bit 54 = 1 unless r contains execute"
const PAGE_BITS: u64 = 0x73f;

const READ_BIT: u64 = 0x40;

const WRITE_BIT: u64 = 0x80;

const NO_EXECUTE_BIT: u64 = 0x40000000000000;

// What a number of rights is divided by for its bit.
const WRITE: u64 = 2;

const EXECUTE: u64 = 4;

// "1, 3, 5 or 7 (1 read, 2 write, 4 execute, added up)"
#[derive(Clone, Copy, PartialEq, Eq)]
pub enum Rights {
    Read,
    ReadWrite,
    ReadExecute,
    ReadWriteExecute,
}

// A number that is no rights.
#[derive(Clone, Copy, PartialEq, Eq)]
pub struct NoRights(pub u64);

impl TryFrom<u64> for Rights {
    type Error = NoRights;

    ghost try_from_gives = { ReadsRights };

    fn try_from(number: u64) -> Result<Self, NoRights> {
        match number {
            1 => Ok(Rights::Read),
            3 => Ok(Rights::ReadWrite),
            5 => Ok(Rights::ReadExecute),
            7 => Ok(Rights::ReadWriteExecute),
            _ => Err(NoRights(number)),
        }
    }
}

// Not so, 7: "guest-physical address not a multiple of 4,096, or 2^48 or more".
pub fn is_page_address(a: u64) -> bool
    ensures { result ≡ page_address a }
{
    a % FRAME_BYTES == 0 && a < ADDRESS_END
}

// The entry that leads to table t.
#[tactic(auto, unfolding(model::specs::Entry::table_entry))]
pub fn of_table(first: u64, t: u64) -> u64
    requires { first + t < page_count }
    ensures { result ≡ table_entry first t }
{
    (first + t) * FRAME_BYTES + TABLE_BITS
}

// The entry that leads to frame f with rights r.
// Stays: r is a number, since it answers for every number, also one that is no rights (`page_entry first f r`).
#[tactic(auto, unfolding(model::specs::Entry::page_entry))]
pub fn of_page(first: u64, f: u64, r: u64) -> u64
    requires { first + f < page_count }
    ensures { result ≡ page_entry first f r }
{
    (first + f) * FRAME_BYTES
        + PAGE_BITS
        + READ_BIT * (r % 2)
        + WRITE_BIT * (r / WRITE % 2)
        + NO_EXECUTE_BIT * (1 - r / EXECUTE % 2)
}

// The table that entry x leads to.
#[tactic(auto, using(crate::proofs::Laws::Entries::table_there))]
pub fn table_in(first: u64, x: u64) -> u64
    requires { ToTable first x }
    ensures { entry first x ≡ to_table result }
{
    x / FRAME_BYTES - first
}

// The frame that entry x leads to.
pub fn frame_in(first: u64, x: u64) -> u64
    requires { ToPage first x }
    ensures { LeadsTo first x result }
{
    x / FRAME_BYTES % PAGE_COUNT - first
}
