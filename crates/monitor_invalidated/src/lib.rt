// Document 03, section 3: invalidated.
// Stays: RAM and the ledger, and Sound of both, in each contract: C lends two slices to pageledger_invalidated (docs/DECISIONS.md, 60).
// Stays: check, do, Ok(()): crate monitor says why.
#![tactic(auto)]

ghost use Rattle.std.specs.Prelude.{◌≡◌};
ghost use Rattle.model.specs.Changes.{released};
ghost use Rattle.model.specs.Operations.{refusal, invalidated as invalidated_of};
ghost use Rattle.ledger.specs.Layout.{state_of};
ghost use Rattle.ledger.specs.LedgerSound.{LedgerSound};
ghost use Rattle.ledger.specs.Sound.{Sound};
ghost use Rattle.monitor_contract.specs.Refusals.{answer_number};
ghost use Rattle.monitor_contract.specs.Answers.{Answers, Done};
ghost use Rattle.monitor_contract.specs.EachFrame.{EachTurned, same};
ghost use Rattle.monitor_invalidated.specs.Invalidated.{invalidating};

use ledger::{guest, header};
use monitor_contract::refusals::{Refusal, demand};

#[tactic(auto, unfolding(model::specs::Operations::invalidated, model::specs::Operations::check))]
fn check_invalidated(ram: &[u8], ledger: &[u32], g: u64) -> Result<(), Refusal>
    requires { Sound ram.now ledger.now }
    ensures { answer_number result ≡ refusal (invalidated_of (state_of ram.now ledger.now) g) }
{
    demand(guest::is_guest(g), Refusal::NoGuestNumber)
}

// Stays: drain_all of monitor_destroy is this loop over another turn; one loop for both takes the turn as a closure, and then a clause on
// the closure that is longer than the two loops.
#[tactic(auto, using(monitor_contract::proofs::Laws::EachFrame::turned_low))]
fn release_all(ledger: &mut [u32], g: u64)
    requires { LedgerSound ledger.old }
    ensures { EachTurned (released g) same ledger.old ledger.new }
{
    for f in 0..header::size(ledger) {
        ledger_free::release(ledger, f, g);
    }
}

#[tactic(auto, using(crate::proofs::Laws::Invalidated::invalidated_guest, crate::proofs::Laws::Invalidated::invalidated_end))]
fn do_invalidated(ram: &[u8], ledger: &mut [u32], g: u64)
    requires sound { Sound ram.now ledger.old }
    requires g_value { refusal (invalidated_of (state_of ram.now ledger.old) g) ≡ 0 }
    ensures { Done (invalidating g) ram.now ledger.old ram.now ledger.new }
{
    release_all(ledger, g);
    guest::set_dirty(ledger, g, false);
}

// "invalidated g: g isn't dirty any more; what drains for g is free"
pub fn invalidated(ram: &[u8], ledger: &mut [u32], g: u64) -> Result<(), Refusal>
    requires { Sound ram.now ledger.old }
    ensures { Answers (invalidating g) ram.now ledger.old (answer_number result) ram.now ledger.new }
{
    check_invalidated(ram, ledger, g)?;
    do_invalidated(ram, ledger, g);
    Ok(())
}
