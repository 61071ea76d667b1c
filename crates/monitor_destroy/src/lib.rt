// Document 03, section 3: destroy.
// Stays: RAM and the ledger, and Sound of both, in each contract: C lends two slices to pageledger_destroy (docs/DECISIONS.md, 60).
// Stays: check, do, Ok(()): crate monitor says why.
#![tactic(auto)]

ghost use Rattle.std.specs.Prelude.{◌≡◌, true, ◌<◌};
ghost use Rattle.model.specs.State.{is_guest};
ghost use Rattle.model.specs.Changes.{drained};
ghost use Rattle.model.specs.Operations.{refusal, unshared as unshared_of, destroy as destroy_of};
ghost use Rattle.ledger.specs.Layout.{size_of, state_of};
ghost use Rattle.ledger.specs.LedgerSound.{LedgerSound};
ghost use Rattle.ledger.specs.Sound.{Sound};
ghost use Rattle.monitor_contract.specs.Refusals.{answer_number};
ghost use Rattle.monitor_contract.specs.Answers.{Answers, Done};
ghost use Rattle.monitor_contract.specs.EachFrame.{EachTurned, without};
ghost use Rattle.monitor_destroy.specs.Destroy.{destroying, none_shared};

use ledger::frame::Shared;
use ledger::{frame, guest, header};
use monitor_contract::checks;
use monitor_contract::refusals::{Refusal, demand};

// Frame f is no page that g shares with somebody, or somebody with g.
#[tactic(auto, using(ledger::proofs::Laws::Kinds::known_nothing), unfolding(model::specs::Operations::unshared, ledger::specs::Layout::state_in))]
fn unshared(ram: &[u8], ledger: &[u32], f: u64, g: u64) -> bool
    requires sound { Sound ram.now ledger.now }
    requires f_bound { f < size_of ledger.now }
    requires g_value { is_guest g ≡ true }
    ensures { result ≡ unshared_of (state_of ram.now ledger.now) f g }
{
    !frame::is_page(ledger, f)
        || (frame::sharing(ledger, f, g) == Shared::Nothing
            && (!frame::is_page_of(ledger, f, g) || frame::uses(ledger, f).shares == 0))
}

fn all_unshared(ram: &[u8], ledger: &[u32], g: u64) -> bool
    requires sound { Sound ram.now ledger.now }
    requires g_value { is_guest g ≡ true }
    ensures { result ≡ none_shared (state_of ram.now ledger.now) g }
{
    for f in 0..header::size(ledger) {
        if !unshared(ram, ledger, f, g) {
            return false;
        }
    }
    true
}

#[tactic(auto, using(ledger::proofs::Laws::Sound::guest_there), unfolding(model::specs::Operations::destroy, model::specs::Operations::check, ledger::specs::Layout::state_in))]
fn check_destroy(ram: &[u8], ledger: &[u32], g: u64) -> Result<(), Refusal>
    requires { Sound ram.now ledger.now }
    ensures { answer_number result ≡ refusal (destroy_of (state_of ram.now ledger.now) g) }
{
    checks::guest_exists(ledger, g)?;
    demand(all_unshared(ram, ledger, g), Refusal::StillUsed)
}

// Stays: beside release_all of monitor_invalidated, for the reason written there.
#[tactic(auto, using(monitor_contract::proofs::Laws::EachFrame::turned_low, monitor_contract::proofs::Laws::Answers::still_low))]
fn drain_all(ledger: &mut [u32], g: u64)
    requires ledger_sound { LedgerSound ledger.old }
    requires g_value { is_guest g ≡ true }
    ensures { EachTurned (drained g) (without g) ledger.old ledger.new }
{
    for f in 0..header::size(ledger) {
        ledger_free::drain(ledger, f, g);
        frame::set_count(ledger, f, g, 0);
    }
}

#[tactic(auto, using(crate::proofs::Laws::Destroy::destroy_guest, crate::proofs::Laws::Destroy::destroy_low))]
fn do_destroy(ram: &[u8], ledger: &mut [u32], g: u64)
    requires sound { Sound ram.now ledger.old }
    requires g_value { refusal (destroy_of (state_of ram.now ledger.old) g) ≡ 0 }
    ensures { Done (destroying g) ram.now ledger.old ram.now ledger.new }
{
    drain_all(ledger, g);
    guest::set_existence(ledger, g, false);
    guest::set_dirty(ledger, g, true);
}

// "destroy g: g no longer exists and is dirty; its tables and pages drain for g"
pub fn destroy(ram: &[u8], ledger: &mut [u32], g: u64) -> Result<(), Refusal>
    requires { Sound ram.now ledger.old }
    ensures { Answers (destroying g) ram.now ledger.old (answer_number result) ram.now ledger.new }
{
    check_destroy(ram, ledger, g)?;
    do_destroy(ram, ledger, g);
    Ok(())
}
