// Document 03, section 3: share and unshare. The doing of both is one store.
// Stays: RAM and the ledger, and Sound of both, in each contract: C lends two slices to pageledger_share (docs/DECISIONS.md, 60).
// Stays: check, do, Ok(()): crate monitor says why.
// Stays: the numbers of an operation beside them, as in its definition: each clause would take a struct of them apart again.
#![tactic(auto)]

ghost use Rattle.std.specs.Prelude.{◌≡◌, true, ◌<◌};
ghost use Rattle.model.specs.Operations.{refusal, share as share_of, unshare as unshare_of};
ghost use Rattle.model.specs.State.{is_guest};
ghost use Rattle.ledger.specs.Layout.{size_of, count_of, dirty_of, state_of};
ghost use Rattle.ledger.specs.Kinds.{share_code};
ghost use Rattle.ledger.specs.LedgerSound.{LedgerSound};
ghost use Rattle.ledger.specs.Sound.{Sound};
ghost use Rattle.monitor_contract.specs.Refusals.{answer_number};
ghost use Rattle.monitor_contract.specs.Answers.{Answers};
ghost use Rattle.monitor_share.specs.Share.{sharing, unsharing, held_back, extent as extent_of};

use ledger::frame::Shared;
use ledger::{frame, guest};
use monitor_contract::checks;
use monitor_contract::refusals::{Refusal, demand};

// 13 while h has f mapped anywhere, 14 while h is dirty: what keeps a right from being taken away.
fn held(ledger: &[u32], f: u64, h: u64) -> Result<(), Refusal>
    requires ledger_sound { LedgerSound ledger.now }
    requires f_bound { f < size_of ledger.now }
    requires h_value { is_guest h ≡ true }
    ensures { answer_number result ≡ held_back (count_of ledger.now f h) (dirty_of ledger.now h) }
{
    demand(frame::count(ledger, f, h) == 0, Refusal::StillUsed)?;
    demand(!guest::dirty(ledger, h), Refusal::Dirty)
}

#[tactic(auto, using(crate::proofs::Laws::Share::tests), unfolding(model::specs::Operations::share, model::specs::Operations::check, ledger::specs::Layout::state_in))]
fn check_share(ram: &[u8], ledger: &[u32], g: u64, f: u64, h: u64, w: u64) -> Result<(), Refusal>
    requires { Sound ram.now ledger.now }
    ensures { answer_number result ≡ refusal (share_of (state_of ram.now ledger.now) g f h w) }
{
    checks::guest_exists(ledger, g)?;
    checks::guest_exists(ledger, h)?;
    demand(g != h, Refusal::WithItself)?;
    checks::frame_exists(ledger, f)?;
    checks::is_its_page(ledger, f, g)?;
    if w == 0 && frame::sharing(ledger, f, h) == Shared::Writing {
        return held(ledger, f, h);
    }
    Ok(())
}

// How far f is shared then.
// Stays: w is the number that C passes, and `sharing g f h w` promises an answer for each: all but 0 are writing.
fn extent(w: u64) -> Shared
    ensures { share_code result ≡ extent_of w }
{
    if w == 0 {
        Shared::Reading
    } else {
        Shared::Writing
    }
}

// "share g's f with h, writing w: h may map f for reading, and for writing too unless w = 0"
#[tactic(auto, using(crate::proofs::Laws::Share::share_owned))]
pub fn share(ram: &[u8], ledger: &mut [u32], g: u64, f: u64, h: u64, w: u64) -> Result<(), Refusal>
    requires { Sound ram.now ledger.old }
    ensures { Answers (sharing g f h w) ram.now ledger.old (answer_number result) ram.now ledger.new }
{
    check_share(ram, ledger, g, f, h, w)?;
    frame::set_share(ledger, f, h, extent(w));
    Ok(())
}

#[tactic(auto, using(crate::proofs::Laws::Share::tests), unfolding(model::specs::Operations::unshare, model::specs::Operations::check, ledger::specs::Layout::state_in))]
fn check_unshare(ram: &[u8], ledger: &[u32], g: u64, f: u64, h: u64) -> Result<(), Refusal>
    requires { Sound ram.now ledger.now }
    ensures { answer_number result ≡ refusal (unshare_of (state_of ram.now ledger.now) g f h) }
{
    checks::guest_exists(ledger, g)?;
    checks::guest_exists(ledger, h)?;
    checks::frame_exists(ledger, f)?;
    checks::is_its_page(ledger, f, g)?;
    demand(
        frame::sharing(ledger, f, h) != Shared::Nothing,
        Refusal::NotItsPage,
    )?;
    held(ledger, f, h) // h loses it, so what h has mapped and kept counts
}

// "unshare g's f from h: h may no longer map f"
#[tactic(auto, using(crate::proofs::Laws::Share::unshare_owned, crate::proofs::Laws::Share::unshare_end))]
pub fn unshare(ram: &[u8], ledger: &mut [u32], g: u64, f: u64, h: u64) -> Result<(), Refusal>
    requires { Sound ram.now ledger.old }
    ensures { Answers (unsharing g f h) ram.now ledger.old (answer_number result) ram.now ledger.new }
{
    check_unshare(ram, ledger, g, f, h)?;
    frame::set_share(ledger, f, h, Shared::Nothing);
    Ok(())
}
