// Document 03, section 3: unmap. The check goes down the tables once, and what it finds is a plan that the doing starts from.
// Stays: RAM and the ledger, and Sound of both, in each contract: C lends two slices to pageledger_unmap (docs/DECISIONS.md, 60).
// Stays: check, do, Ok(()): crate monitor says why.
#![tactic(auto)]

ghost use Rattle.std.specs.Prelude.{OnOk};
ghost use Rattle.std.proofs.Math.Option.{none};
ghost use Rattle.model.specs.Machine.{Unmap};
ghost use Rattle.ledger.specs.Layout.{state_of};
ghost use Rattle.ledger.specs.Sound.{Sound};
ghost use Rattle.monitor_contract.specs.Refusals.{answer_number};
ghost use Rattle.monitor_contract.specs.Answers.{Answers, Done};
ghost use Rattle.monitor_contract.specs.Found.{Translates, Finds};
ghost use Rattle.monitor_unmap.specs.Unmap.{unmapping, Slotted, IsUnmapPlan};

use ledger::{frame, guest, header, words};
use memory::FRAME_BYTES;
use monitor_contract::checks;
use monitor_contract::refusals::{Refusal, demand};
use monitor_tables::{entries, way};

// What the check found: the last table, and the frame that its entry leads to.
#[derive(Clone, Copy)]
pub struct Slot {
    pub table: u64,
    pub frame: u64,
}

#[tactic(auto, using(crate::proofs::Laws::Unmap::plans), unfolding(model::specs::Operations::unmap, model::specs::Operations::check, ledger::specs::Layout::state_in))]
fn plan_unmap(ram: &[u8], ledger: &[u32], a: u64, g: u64) -> Result<Slot, Refusal>
    requires { Sound ram.now ledger.now }
    ensures { IsUnmapPlan (state_of ram.now ledger.now) a g result }
{
    checks::guest_exists(ledger, g)?;
    demand(entries::is_page_address(a), Refusal::NoPageAddress)?;
    let page = a / FRAME_BYTES;
    let place = way::descend(ram, ledger, g, page);
    demand(
        way::is_mapped(ram, ledger, g, page, place),
        Refusal::NotMapped,
    )?;
    let first = header::first(ledger);
    let x = words::entry(ram, place.table, page % way::ENTRIES);
    Ok(Slot {
        table: place.table,
        frame: entries::frame_in(first, x),
    })
}

#[tactic(auto, using(crate::proofs::Laws::Unmap::unmap_row, crate::proofs::Laws::Unmap::unmap_guest))]
fn do_unmap(ram: &mut [u8], ledger: &mut [u32], a: u64, g: u64, slot: Slot)
    requires sound { Sound ram.old ledger.old }
    requires slotted { Slotted (state_of ram.old ledger.old) a g slot.table slot.frame }
    ensures { Done (unmapping a g) ram.old ledger.old ram.new ledger.new }
{
    words::store_entry(
        ram,
        slot.table,
        a / FRAME_BYTES % way::ENTRIES,
        entries::EMPTY,
    );
    let places = frame::count(ledger, slot.frame, g);
    frame::set_count(ledger, slot.frame, g, places - 1);
    guest::set_dirty(ledger, g, true);
}

// "unmap a from g: a no longer translates; the count falls by 1; g becomes dirty"
#[tactic(auto, using(crate::proofs::Laws::Unmap::unmap_effect, crate::proofs::Laws::Unmap::unmap_found))]
pub fn unmap(ram: &mut [u8], ledger: &mut [u32], a: u64, g: u64) -> Result<(), Refusal>
    requires { Sound ram.old ledger.old }
    ensures answers { Answers (unmapping a g) ram.old ledger.old (answer_number result) ram.new ledger.new }
    ensures translates { OnOk result (Translates (Unmap a g) ram.old ledger.old ram.new ledger.new) }
    ensures finds { OnOk result (Finds g a none ram.new ledger.new) }
{
    let slot = plan_unmap(ram, ledger, a, g)?;
    do_unmap(ram, ledger, a, g, slot);
    Ok(())
}
