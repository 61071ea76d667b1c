// A new table of a guest: it is noted in the ledger, cleared, and only then linked in.
ghost use Rattle.std.specs.Prelude.{◌≡◌, ◌+◌, ◌<◌};
ghost use Rattle.model.specs.State.{page_count};
ghost use Rattle.model.specs.Base.{upd2};
ghost use Rattle.model.specs.Entry.{table_entry};
ghost use Rattle.ledger.specs.Layout.{first_of, word_of};
ghost use Rattle.ledger.specs.LedgerSound.{LedgerSound};
ghost use Rattle.ledger.specs.Words.{Within};
ghost use Rattle.monitor_tables.specs.NewTable.{Placed, Blank, cleared_and_linked, Growing, Made};

use super::{entries, way};
use ledger::{header, words};

// Entry i of table t leads to table u from now on. Document 03, section 3: "Tables are filled with zeros before they are linked in".
fn link(ram: &mut [u8], ledger: &[u32], t: u64, i: u64, u: u64)
    requires placed { Placed ledger.now t i u }
    requires blank { Blank ram.old u }
    requires ledger_sound { LedgerSound ledger.now }
    requires t_lt_page_count { (t < page_count) × Within ram.old t }
    requires u_bound { first_of ledger.now + u < page_count }
    ensures { word_of ram.new ≡ upd2 (word_of ram.old) t i (table_entry (first_of ledger.now) u) }
{
    let first = header::first(ledger);
    let x = entries::of_table(first, u);
    words::store_entry(ram, t, i, x);
}

// Table u, which the ledger has already, is filled with zeros and then linked in.
#[tactic(auto, using(crate::proofs::Laws::NewTable::blank, crate::proofs::Laws::NewTable::then_linked))]
fn clear_and_link(ram: &mut [u8], ledger: &[u32], t: u64, i: u64, u: u64)
    requires placed { Placed ledger.now t i u }
    requires ledger_sound { LedgerSound ledger.now }
    requires t_lt_page_count { (t < page_count) × Within ram.old t }
    requires u_lt_page_count { (u < page_count) × Within ram.old u }
    requires u_bound { first_of ledger.now + u < page_count }
    ensures { word_of ram.new ≡ cleared_and_linked ram.old ledger.now t i u }
{
    words::clear_frame(ram, u);
    link(ram, ledger, t, i, u);
}

// The table below t, of height h, on the way to v.
// Stays: h and t are no Place, since the loop that calls it counts the heights and keeps the table alone.
#[tactic(auto, using(crate::proofs::Laws::NewTable::grows_so))]
pub fn make_table(ram: &mut [u8], ledger: &mut [u32], g: u64, v: u64, h: u64, t: u64) -> u64
    requires growing { Growing ram.old ledger.old g v h t }
    requires h_nonzero { 0 < h }
    ensures { Made ram.old ledger.old g v h t result ram.new ledger.new }
{
    let p = way::upper(h, v);
    let u = ledger_free::next(ledger);
    ledger_free::become_table(ledger, u, g, h - 1, p);
    clear_and_link(ram, ledger, t, p % way::ENTRIES, u);
    u
}
