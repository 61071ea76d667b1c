// Document 03, section 3: give and take.
// Stays: RAM and the ledger, and Sound of both, in each contract: C lends two slices to pageledger_give (docs/DECISIONS.md, 60).
// Stays: check, do, Ok(()): crate monitor says why.
// Stays: the numbers of an operation beside them, as in its definition: each clause would take a struct of them apart again.
#![tactic(auto)]

ghost use Rattle.std.specs.Prelude.{◌≡◌};
ghost use Rattle.model.specs.Operations.{refusal, give as give_of, take as take_of};
ghost use Rattle.ledger.specs.Layout.{state_of};
ghost use Rattle.ledger.specs.Sound.{Sound};
ghost use Rattle.monitor_contract.specs.Refusals.{answer_number};
ghost use Rattle.monitor_contract.specs.Answers.{Answers, Done};
ghost use Rattle.monitor_give_take.specs.Give.{giving};
ghost use Rattle.monitor_give_take.specs.Take.{taking};

use ledger::{frame, guest, words};
use monitor_contract::checks;
use monitor_contract::refusals::{Refusal, demand};

#[tactic(auto, unfolding(model::specs::Operations::give, model::specs::Operations::check, ledger::specs::Layout::state_in))]
fn check_give(ram: &[u8], ledger: &[u32], f: u64, g: u64) -> Result<(), Refusal>
    requires { Sound ram.now ledger.now }
    ensures { answer_number result ≡ refusal (give_of (state_of ram.now ledger.now) f g) }
{
    checks::guest_exists(ledger, g)?;
    checks::frame_exists(ledger, f)?;
    demand(frame::is_free(ledger, f), Refusal::NotFree)
}

#[tactic(auto, using(crate::proofs::Laws::Give::give_low, crate::proofs::Laws::Give::give_free, crate::proofs::Laws::Give::give_guest))]
fn do_give(ram: &mut [u8], ledger: &mut [u32], f: u64, g: u64)
    requires sound { Sound ram.old ledger.old }
    requires g_value { refusal (give_of (state_of ram.old ledger.old) f g) ≡ 0 }
    ensures { Done (giving f g) ram.old ledger.old ram.new ledger.new }
{
    words::clear_frame(ram, f);
    ledger_free::become_page(ledger, f, g);
    frame::clear_shares(ledger, f);
}

// "give f to g: f becomes a page of g, shared with nobody, all zero"
pub fn give(ram: &mut [u8], ledger: &mut [u32], f: u64, g: u64) -> Result<(), Refusal>
    requires { Sound ram.old ledger.old }
    ensures { Answers (giving f g) ram.old ledger.old (answer_number result) ram.new ledger.new }
{
    check_give(ram, ledger, f, g)?;
    do_give(ram, ledger, f, g);
    Ok(())
}

#[tactic(auto, unfolding(model::specs::Operations::take, model::specs::Operations::check, ledger::specs::Layout::state_in))]
fn check_take(ram: &[u8], ledger: &[u32], f: u64, g: u64) -> Result<(), Refusal>
    requires { Sound ram.now ledger.now }
    ensures { answer_number result ≡ refusal (take_of (state_of ram.now ledger.now) f g) }
{
    checks::guest_exists(ledger, g)?;
    checks::frame_exists(ledger, f)?;
    checks::is_its_page(ledger, f, g)?;
    let used = frame::uses(ledger, f);
    demand(used.places == 0 && used.shares == 0, Refusal::StillUsed)
}

#[tactic(auto, using(crate::proofs::Laws::Take::take_owned, crate::proofs::Laws::Take::take_not_free))]
fn do_take(ram: &[u8], ledger: &mut [u32], f: u64, g: u64)
    requires sound { Sound ram.now ledger.old }
    requires g_value { refusal (take_of (state_of ram.now ledger.old) f g) ≡ 0 }
    ensures { Done (taking f g) ram.now ledger.old ram.now ledger.new }
{
    if guest::dirty(ledger, g) {
        ledger_free::drain(ledger, f, g);
    } else {
        ledger_free::put_back(ledger, f);
    }
}

// "take f from g: if g is dirty, f drains for g; otherwise f is free"
pub fn take(ram: &[u8], ledger: &mut [u32], f: u64, g: u64) -> Result<(), Refusal>
    requires { Sound ram.now ledger.old }
    ensures { Answers (taking f g) ram.now ledger.old (answer_number result) ram.now ledger.new }
{
    check_take(ram, ledger, f, g)?;
    do_take(ram, ledger, f, g);
    Ok(())
}
