// Document 03, section 3: map. The check goes down the tables once, and what it finds is a plan that the doing starts from.
// Stays: RAM and the ledger, and Sound of both, in each contract: C lends two slices to pageledger_map (docs/DECISIONS.md, 60).
// Stays: check, do, Ok(()): crate monitor says why.
#![tactic(auto)]

ghost use Rattle.std.specs.Prelude.{◌≡◌, true, ◌+◌, ◌<◌, OnOk};
ghost use Rattle.std.proofs.Math.Option.{some};
ghost use Rattle.model.specs.State.{is_guest};
ghost use Rattle.model.specs.Operations.{shares as shares_of};
ghost use Rattle.model.specs.Machine.{Map};
ghost use Rattle.ledger.specs.Layout.{size_of, pick_of, state_of};
ghost use Rattle.ledger.specs.Kinds.{share_code};
ghost use Rattle.ledger.specs.LedgerSound.{LedgerSound};
ghost use Rattle.ledger.specs.Sound.{Sound};
ghost use Rattle.monitor_contract.specs.Refusals.{answer_number};
ghost use Rattle.monitor_contract.specs.Answers.{Answers, Done};
ghost use Rattle.monitor_contract.specs.Found.{Translates, Finds};
ghost use Rattle.monitor_tables.specs.Rights.{rights_number};
ghost use Rattle.monitor_map.specs.Map.{mapping as mapping_of, first_refusal, allows, Ready, IsMapPlan};

use ledger::frame::Shared;
use ledger::{frame, guest, header, words};
use memory::FRAME_BYTES;
use monitor_contract::checks;
use monitor_contract::refusals::{Refusal, demand};
use monitor_tables::entries::Rights;
use monitor_tables::way::Place;
use monitor_tables::{entries, new_table, way};

// Of another guest's page, of which so much is shared: no executing; writing only where that is shared too.
#[tactic(auto, unfolding(model::specs::Operations::shares))]
fn shares(how: Shared, rights: Rights) -> bool
    ensures { result ≡ shares_of (share_code how) (rights_number rights) }
{
    match rights {
        Rights::Read => how != Shared::Nothing,
        Rights::ReadWrite => how == Shared::Writing,
        Rights::ReadExecute | Rights::ReadWriteExecute => false,
    }
}

// Stays in map: a call of its own made a refused map take a fifth more instructions (docs/DESIGN-PASS.md).
#[inline(always)]
#[tactic(auto, using(crate::proofs::Laws::Map::shares_known))]
fn may_map(ledger: &[u32], f: u64, g: u64, rights: Rights) -> bool
    requires ledger_sound { LedgerSound ledger.now }
    requires f_bound { f < size_of ledger.now }
    requires g_value { is_guest g ≡ true }
    ensures { result ≡ allows ledger.now f g (rights_number rights) }
{
    frame::is_page_of(ledger, f, g)
        || (frame::is_page(ledger, f) && shares(frame::sharing(ledger, f, g), rights))
}

// The tests that look at no table.
// Stays: f, g, a and r are four numbers, as in `mapping f g a r`: every clause here would take a struct of them apart again.
// And r is the number that C passes: `mapping f g a r` promises an answer for each.
#[tactic(auto, unfolding(model::specs::Operations::check, model::specs::Operations::may_map, ledger::specs::Layout::state_in))]
fn check_map(ram: &[u8], ledger: &[u32], f: u64, g: u64, a: u64, r: u64) -> Result<(), Refusal>
    requires { Sound ram.now ledger.now }
    ensures { answer_number result ≡ first_refusal (state_of ram.now ledger.now) f g a r }
{
    checks::guest_exists(ledger, g)?;
    demand(!guest::dirty(ledger, g), Refusal::Dirty)?;
    demand(entries::is_page_address(a), Refusal::NoPageAddress)?;
    let rights = Rights::try_from(r).or(Err(Refusal::NoRights))?;
    checks::frame_exists(ledger, f)?;
    demand(may_map(ledger, f, g, rights), Refusal::NotItsPage)
}

// The last table that is there, and its height, which is the number of tables that are missing.
fn plan_map(ram: &[u8], ledger: &[u32], f: u64, g: u64, a: u64, r: u64) -> Result<Place, Refusal>
    requires { Sound ram.now ledger.now }
    ensures { IsMapPlan (state_of ram.now ledger.now) f g a r (pick_of ledger.now) result }
{
    check_map(ram, ledger, f, g, a, r)?;
    let page = a / FRAME_BYTES;
    let place = way::descend(ram, ledger, g, page);
    if way::is_mapped(ram, ledger, g, page, place) {
        return Err(Refusal::MappedAlready);
    }
    if header::free(ledger) < place.height {
        return Err(Refusal::NoFreeFrames);
    }
    Ok(place)
}

fn do_map(ram: &mut [u8], ledger: &mut [u32], f: u64, g: u64, a: u64, r: u64, place: Place)
    requires sound { Sound ram.old ledger.old }
    requires ready { Ready (state_of ram.old ledger.old) f g a r place.height place.table }
    ensures { Done (mapping_of f g a r) ram.old ledger.old ram.new ledger.new }
{
    let page = a / FRAME_BYTES;
    let mut table = place.table;
    for height in (1..=place.height).rev() {
        table = new_table::make_table(ram, ledger, g, page, height, table);
    }
    let first = header::first(ledger);
    let x = entries::of_page(first, f, r);
    words::store_entry(ram, table, page % way::ENTRIES, x);
    let places = frame::count(ledger, f, g);
    frame::set_count(ledger, f, g, places + 1);
}

// "map f into g at a, rights r: a translates to f with rights r; f's count grows by 1"
#[tactic(auto, using(crate::proofs::Laws::Map::map_effect, crate::proofs::Laws::Map::map_found))]
pub fn map(
    ram: &mut [u8],
    ledger: &mut [u32],
    f: u64,
    g: u64,
    a: u64,
    r: u64,
) -> Result<(), Refusal>
    requires { Sound ram.old ledger.old }
    ensures answers { Answers (mapping_of f g a r) ram.old ledger.old (answer_number result) ram.new ledger.new }
    ensures translates { OnOk result (Translates (Map f g a r (pick_of ledger.old)) ram.old ledger.old ram.new ledger.new) }
    ensures finds { OnOk result (Finds g a (some (f, r)) ram.new ledger.new) }
{
    let place = plan_map(ram, ledger, f, g, a, r)?;
    do_map(ram, ledger, f, g, a, r, place);
    Ok(())
}
