// The tests that several operations make: that the guest and the frame that a caller names are there, and that the frame is the guest's
// page. Each is refused with its own number.
// Stays: LedgerSound in each contract: slices are parameters (docs/DECISIONS.md, 60).
ghost use Rattle.std.specs.Prelude.{◌<◌, ltb};
ghost use Rattle.model.specs.State.{is_page_of};
ghost use Rattle.ledger.specs.Layout.{size_of, exists_of, kind_of};
ghost use Rattle.ledger.specs.LedgerSound.{LedgerSound};
ghost use Rattle.monitor_contract.specs.Refusals.{Tested};

use super::refusals::{Refusal, demand};
use ledger::{frame, guest, header};

pub fn guest_exists(ledger: &[u32], g: u64) -> Result<(), Refusal>
    requires { LedgerSound ledger.now }
    ensures { Tested (exists_of ledger.now g) Refusal.NoGuest result }
{
    demand(guest::exists(ledger, g), Refusal::NoGuest)
}

pub fn frame_exists(ledger: &[u32], f: u64) -> Result<(), Refusal>
    requires { LedgerSound ledger.now }
    ensures { Tested (ltb f (size_of ledger.now)) Refusal.NoFrame result }
{
    demand(f < header::size(ledger), Refusal::NoFrame)
}

pub fn is_its_page(ledger: &[u32], f: u64, g: u64) -> Result<(), Refusal>
    requires ledger_sound { LedgerSound ledger.now }
    requires f_bound { f < size_of ledger.now }
    ensures { Tested (is_page_of (kind_of ledger.now f) g) Refusal.NotItsPage result }
{
    demand(frame::is_page_of(ledger, f, g), Refusal::NotItsPage)
}
