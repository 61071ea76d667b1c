// n, b and the number of free frames.
ghost use Rattle.std.specs.Prelude.{◌≡◌, ◌+◌, ◌*◌, ◌<◌};
ghost use Rattle.ledger.specs.Columns.{WORD_LIMIT};
ghost use Rattle.ledger.specs.Layout.{size_of, first_of};
ghost use Rattle.ledger.specs.LedgerSound.{LedgerSound};
ghost use Rattle.ledger.specs.Sound.{free_of};

use super::{cells, columns};

#[tactic(auto, unfolding(crate::specs::Layout::size_in))]
pub fn size(ledger: &[u32]) -> u64
    requires { LedgerSound ledger.now }
    ensures { (result ≡ size_of ledger.now) × (result < WORD_LIMIT) }
{
    cells::of_guest(ledger, columns::FRAME_COUNT, columns::HEADER)
}

// The number of RAM's first frame in physical memory, b / 4096.
#[tactic(auto, unfolding(crate::specs::Layout::first_in))]
pub fn first(ledger: &[u32]) -> u64
    requires { LedgerSound ledger.now }
    ensures { result ≡ first_of ledger.now }
{
    let low = cells::of_guest(ledger, columns::FIRST_LOW, columns::HEADER);
    let high = cells::of_guest(ledger, columns::FIRST_HIGH, columns::HEADER);
    low + columns::WORD_LIMIT * high
}

// How many frames are free.
pub fn free(ledger: &[u32]) -> u64
    requires { LedgerSound ledger.now }
    ensures { (result ≡ free_of ledger.now) × (result < WORD_LIMIT) }
{
    cells::of_guest(ledger, columns::FREE_COUNT, columns::HEADER)
}
