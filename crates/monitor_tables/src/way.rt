// The way of a guest's page through its stage-2 tables, as far as they go.
ghost use Rattle.std.specs.Prelude.{◌≡◌, true, ◌<◌, ◌≤◌};
ghost use Rattle.model.specs.State.{page_count};
ghost use Rattle.model.specs.Translate.{upper as upper_of, mapped};
ghost use Rattle.ledger.specs.Layout.{exists_of, state_of};
ghost use Rattle.ledger.specs.Sound.{Sound};
ghost use Rattle.monitor_tables.specs.Way.{Ended};

use super::entries;
use ledger::{guest, header, kinds, words};

// A table has 512 entries, and so an index into one nine bits.
pub const ENTRIES: u64 = 512;

const INDEX_BITS: u64 = 9;

// Where the way through the tables ends: the table, and its height above the pages' entries.
#[derive(Clone, Copy)]
pub struct Place {
    pub height: u64,
    pub table: u64,
}

// The number v of a page without its last h groups of nine bits.
#[tactic(auto, using(crate::proofs::Laws::Way::shifted))]
pub fn upper(h: u64, v: u64) -> u64
    requires { h ≤ 3 }
    ensures { result ≡ upper_of h v }
{
    v >> (INDEX_BITS * h)
}

#[tactic(auto, using(crate::proofs::Laws::Way::way_words))]
pub fn descend(ram: &[u8], ledger: &[u32], g: u64, v: u64) -> Place
    requires sound { Sound ram.now ledger.now }
    requires g_value { (exists_of ledger.now g ≡ true) × (v < page_count) }
    ensures { Ended (state_of ram.now ledger.now) g v result.height result.table }
{
    let first = header::first(ledger);
    let mut table = guest::root(ledger, g);
    for height in (1..=kinds::ROOT_HEIGHT).rev() {
        let x = words::entry(ram, table, upper(height, v) % ENTRIES);
        if x == entries::EMPTY {
            return Place { height, table };
        }
        table = entries::table_in(first, x);
    }
    Place { height: 0, table }
}

// Whether the last table that is there, where the way ended, leads to a page.
#[tactic(auto, using(crate::proofs::Laws::Way::ends))]
pub fn is_mapped(ram: &[u8], ledger: &[u32], g: u64, v: u64, place: Place) -> bool
    requires sound { Sound ram.now ledger.now }
    requires g_value { exists_of ledger.now g ≡ true }
    requires ended { Ended (state_of ram.now ledger.now) g v place.height place.table }
    ensures { result ≡ mapped (state_of ram.now ledger.now) g v }
{
    place.height == 0 && words::entry(ram, place.table, v % ENTRIES) != entries::EMPTY
}
