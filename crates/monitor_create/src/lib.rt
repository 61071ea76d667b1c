// Document 03, section 3: create.
// Stays: RAM and the ledger, and Sound of both, in each contract: C lends two slices to pageledger_create (docs/DECISIONS.md, 60).
// Stays: check, do, Ok(()): crate monitor says why.
#![tactic(auto)]

ghost use Rattle.std.specs.Prelude.{◌≡◌};
ghost use Rattle.model.specs.Operations.{refusal, create as create_of};
ghost use Rattle.ledger.specs.Layout.{state_of, pick_of};
ghost use Rattle.ledger.specs.Sound.{Sound};
ghost use Rattle.monitor_contract.specs.Refusals.{answer_number};
ghost use Rattle.monitor_contract.specs.Answers.{Answers, Done};
ghost use Rattle.monitor_create.specs.Create.{creating};

use ledger::{guest, header, kinds, words};
use monitor_contract::refusals::{Refusal, demand};

#[tactic(auto, using(ledger::proofs::Laws::Sound::free_is), unfolding(model::specs::Operations::create, model::specs::Operations::check, ledger::specs::Layout::state_in))]
fn check_create(ram: &[u8], ledger: &[u32], g: u64) -> Result<(), Refusal>
    requires { Sound ram.now ledger.now }
    ensures { answer_number result ≡ refusal (create_of (state_of ram.now ledger.now) g (pick_of ledger.now)) }
{
    demand(guest::is_guest(g), Refusal::NoGuestNumber)?;
    demand(
        !guest::exists(ledger, g) && !guest::dirty(ledger, g),
        Refusal::GuestExists,
    )?;
    demand(header::free(ledger) != 0, Refusal::NoFreeFrames)
}

// The table is cleared before it is the root.
#[tactic(auto, using(crate::proofs::Laws::Create::create_guest, crate::proofs::Laws::Create::create_free))]
fn do_create(ram: &mut [u8], ledger: &mut [u32], g: u64)
    requires sound { Sound ram.old ledger.old }
    requires ledger_value { refusal (create_of (state_of ram.old ledger.old) g (pick_of ledger.old)) ≡ 0 }
    ensures { Done (creating g) ram.old ledger.old ram.new ledger.new }
{
    let t = ledger_free::next(ledger);
    words::clear_frame(ram, t);
    ledger_free::become_table(ledger, t, g, kinds::ROOT_HEIGHT, 0);
    guest::set_existence(ledger, g, true);
    guest::set_root(ledger, g, t);
}

// "create g: a free frame becomes g's root table, all zero"
pub fn create(ram: &mut [u8], ledger: &mut [u32], g: u64) -> Result<(), Refusal>
    requires { Sound ram.old ledger.old }
    ensures { Answers (creating g) ram.old ledger.old (answer_number result) ram.new ledger.new }
{
    check_create(ram, ledger, g)?;
    do_create(ram, ledger, g);
    Ok(())
}
