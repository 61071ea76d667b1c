// The free frames, a sparse set: taking any, taking a named one and putting one back each exchange two places.
// Stays: a permutation of frames in cells of the ledger, and no collection of the library: the ledger is a lent slice, with no heap.
// Stays: what the contracts ask of a ledger and a frame stands in each of them, as in crate ledger (docs/DECISIONS.md, 60).
// Stays: drain beside release, and become_page beside become_table: other kinds, and as many cells as the kind has, over one store_kind.
#![tactic(auto)]

ghost use Rattle.std.specs.Prelude.{◌≡◌, false, ◌<◌, ◌^◌};
ghost use Rattle.model.specs.State.{free, table, page, is_free};
ghost use Rattle.model.specs.Changes.{drained, released};
ghost use Rattle.ledger.specs.Columns.{WORD_LIMIT, GUEST_ROWS, HEADER_WORDS, KIND};
ghost use Rattle.ledger.specs.Cells.{store};
ghost use Rattle.ledger.specs.Layout.{size_of, kind_of, Row};
ghost use Rattle.ledger.specs.Kinds.{kind_code};
ghost use Rattle.ledger.specs.Fields.{with_kind, with_kind_by};
ghost use Rattle.ledger.specs.LedgerSound.{LedgerSound, Changed, Taken};
ghost use Rattle.ledger_free.specs.Moves.{Next, placed, exchanged, settled, occupied};
ghost use Rattle.ledger.specs.Sound.{free_of};

use ledger::kinds::Kind;
use ledger::{cells, columns, frame, header};

pub mod start;

// The frame that is taken when any will do.
pub fn next(ledger: &[u32]) -> u64
    requires ledger_sound { LedgerSound ledger.now }
    requires ledger_nonzero { 0 < free_of ledger.now }
    ensures { Next ledger.now result }
{
    cells::of_frame(ledger, columns::FRAME_AT, header::free(ledger) - 1)
}

fn store_kind(ledger: &mut [u32], f: u64, kind: Kind)
    requires { Row ledger.old f }
    ensures { ledger.new ≡ store HEADER_WORDS ledger.old KIND f (kind_code kind) }
{
    cells::store_of_frame(ledger, columns::KIND, f, u64::from(kind));
}

// Frame f stands at place q.
#[tactic(auto, unfolding(crate::specs::Moves::placed))]
fn place(ledger: &mut [u32], f: u64, q: u64)
    requires row { Row ledger.old f }
    requires row_2 { Row ledger.old q }
    ensures { ledger.new ≡ placed ledger.old f q }
{
    cells::store_of_frame(ledger, columns::FRAME_AT, q, f);
    cells::store_of_frame(ledger, columns::PLACE, f, q);
}

// Frame f and the one at place q change places.
#[tactic(auto, unfolding(crate::specs::Moves::exchanged))]
fn exchange(ledger: &mut [u32], f: u64, q: u64)
    requires ledger_sound { LedgerSound ledger.old }
    requires f_bound { (f < size_of ledger.old) × (q < size_of ledger.old) }
    ensures { ledger.new ≡ exchanged ledger.old f q }
{
    let p = cells::of_frame(ledger, columns::PLACE, f);
    let e = cells::of_frame(ledger, columns::FRAME_AT, q);
    place(ledger, e, p);
    place(ledger, f, q);
}

// Frame f changes places with the one at q and becomes another kind; so many frames are free then.
#[tactic(auto, unfolding(crate::specs::Moves::settled))]
fn settle(ledger: &mut [u32], f: u64, q: u64, kind: Kind, count: u64)
    requires ledger_sound { LedgerSound ledger.old }
    requires f_bound { (f < size_of ledger.old) × (q < size_of ledger.old) }
    requires count_bound { count < WORD_LIMIT }
    ensures { ledger.new ≡ settled ledger.old f q (kind_code kind) count }
{
    exchange(ledger, f, q);
    cells::store_of_guest(ledger, columns::FREE_COUNT, columns::HEADER, count);
    store_kind(ledger, f, kind);
}

// The free frame f leaves the set and becomes another kind.
#[tactic(auto, using(crate::proofs::Laws::Moves::last_place))]
fn occupy(ledger: &mut [u32], f: u64, kind: Kind)
    requires ledger_sound { LedgerSound ledger.old }
    requires f_bound { f < size_of ledger.old }
    requires f_value { kind_of ledger.old f ≡ free }
    ensures { ledger.new ≡ occupied ledger.old f (kind_code kind) }
{
    let last = header::free(ledger) - 1;
    settle(ledger, f, last, kind, last);
}

pub fn become_page(ledger: &mut [u32], f: u64, g: u64)
    requires ledger_sound { LedgerSound ledger.old }
    requires f_bound { f < size_of ledger.old }
    requires f_value { kind_of ledger.old f ≡ free }
    requires g_bound { g < GUEST_ROWS }
    ensures { Taken f (page g) ledger.old ledger.new }
{
    occupy(ledger, f, Kind::Page);
    cells::store_of_frame(ledger, columns::GUEST, f, g);
}

pub fn become_table(ledger: &mut [u32], f: u64, g: u64, h: u64, p: u64)
    requires ledger_sound { LedgerSound ledger.old }
    requires f_bound { f < size_of ledger.old }
    requires f_value { kind_of ledger.old f ≡ free }
    requires g_bound { (g < GUEST_ROWS) × (h < 4) × (p < 2 ^ 27) }
    ensures { Taken f (table g h p) ledger.old ledger.new }
{
    occupy(ledger, f, Kind::Table);
    cells::store_of_frame(ledger, columns::GUEST, f, g);
    cells::store_of_frame(ledger, columns::HEIGHT, f, h);
    cells::store_of_frame(ledger, columns::RANGE, f, p);
}

// Frame f, which is not free, becomes so.
#[tactic(auto, using(crate::proofs::Laws::Moves::not_one, crate::proofs::Laws::Moves::next_place, crate::proofs::Laws::Moves::freed))]
pub fn put_back(ledger: &mut [u32], f: u64)
    requires ledger_sound { LedgerSound ledger.old }
    requires f_bound { f < size_of ledger.old }
    requires f_value { is_free (kind_of ledger.old f) ≡ false }
    ensures { Changed (with_kind f free) ledger.old ledger.new }
{
    let count = header::free(ledger);
    settle(ledger, f, count, Kind::Free, count + 1);
}

// Frame f, if it is a table or a page of guest g, drains for it.
pub fn drain(ledger: &mut [u32], f: u64, g: u64)
    requires ledger_sound { LedgerSound ledger.old }
    requires f_bound { f < size_of ledger.old }
    ensures { Changed (with_kind_by f (drained g)) ledger.old ledger.new }
{
    let kind = Kind::from(frame::kind_for(ledger, f, g));
    match kind {
        Kind::Table | Kind::Page => store_kind(ledger, f, kind.draining()),
        _ => {}
    }
}

// Frame f, if it drains for guest g, becomes free.
pub fn release(ledger: &mut [u32], f: u64, g: u64)
    requires ledger_sound { LedgerSound ledger.old }
    requires f_bound { f < size_of ledger.old }
    ensures { Changed (with_kind_by f (released g)) ledger.old ledger.new }
{
    let kind = Kind::from(frame::kind_for(ledger, f, g));
    match kind {
        Kind::DrainingTable | Kind::DrainingPage => put_back(ledger, f),
        _ => {}
    }
}
