// A frame's row: what it is, whom it is shared with, and in how many places it is mapped.
// A clause reads a constant of the code where the code has one of the name: so the definitions' have another here.
ghost use Rattle.std.specs.Prelude.{◌≡◌, true, ◌+◌, ◌*◌, ◌<◌};
ghost use Rattle.model.specs.State.{kind_number, is_free, is_page, is_page_of, is_guest, total};
ghost use Rattle.ledger.specs.Columns.{SHARE_UNIT as share_unit, WORD_LIMIT};
ghost use Rattle.ledger.specs.Layout.{frames, size_of, kind_of, shared_of, count_of};
ghost use Rattle.ledger.specs.Kinds.{guest_in, kind_code, kind_for, share_code, known_share};
ghost use Rattle.ledger.specs.Fields.{with_cell, with_share, with_no_shares, with_count};
ghost use Rattle.ledger.specs.LedgerSound.{LedgerSound, Changed};

use super::columns::SHARE_UNIT;
use super::kinds::Kind;
use super::{GUESTS, cells, columns};

// The owner of a frame that is no guest's.
const NOBODY: u64 = 0;

// What of a page is shared with a guest: nothing, reading, or writing too.
#[derive(Clone, Copy, PartialEq, Eq)]
pub enum Shared {
    Nothing,
    Reading,
    Writing,
}

// Its numbers, as the variants are numbered from 0 on.
const NOTHING: u64 = 0;

const READING: u64 = 1;

impl From<Shared> for u64 {
    ghost from_gives = { λ shared number. number ≡ share_code shared };

    fn from(shared: Shared) -> u64 {
        shared as u64
    }
}

// A number above that of writing reads as it does.
impl From<u64> for Shared {
    ghost from_gives = { λ number shared. share_code shared ≡ known_share number };

    fn from(number: u64) -> Shared {
        match number {
            NOTHING => Shared::Nothing,
            READING => Shared::Reading,
            _ => Shared::Writing,
        }
    }
}

// A guest's use of a frame, which its cell holds: what is shared with it, and in how many places it maps the frame.
#[derive(Clone, Copy)]
struct Use {
    share: u64,
    count: u64,
}

#[derive(Drop)]
pub struct Totals {
    pub places: u64,
    pub shares: u64,
}

#[tactic(auto, using(crate::proofs::Laws::Kinds::number_here))]
pub fn kind(ledger: &[u32], f: u64) -> Kind
    requires ledger_sound { LedgerSound ledger.now }
    requires f_bound { f < size_of ledger.now }
    ensures { kind_code result ≡ kind_number (kind_of ledger.now f) }
{
    Kind::from(cells::of_frame(ledger, columns::KIND, f))
}

// Whose table or page it is, or for whom it drains; 0 nobody.
// Stays: 0 and no Option, which would be no plainer: who asks, monitor_query::what_frame, knows by the kind whether there is an owner.
#[tactic(auto, using(crate::proofs::Laws::Kinds::guest_here))]
pub fn owner(ledger: &[u32], f: u64) -> u64
    requires ledger_sound { LedgerSound ledger.now }
    requires f_bound { f < size_of ledger.now }
    ensures { result ≡ guest_in (kind_of ledger.now f) }
{
    match kind(ledger, f) {
        Kind::Monitor | Kind::Free => NOBODY,
        _ => cells::of_frame(ledger, columns::GUEST, f),
    }
}

pub fn is_free(ledger: &[u32], f: u64) -> bool
    requires ledger_sound { LedgerSound ledger.now }
    requires f_bound { f < size_of ledger.now }
    ensures { result ≡ is_free (kind_of ledger.now f) }
{
    kind(ledger, f) == Kind::Free
}

pub fn is_page(ledger: &[u32], f: u64) -> bool
    requires ledger_sound { LedgerSound ledger.now }
    requires f_bound { f < size_of ledger.now }
    ensures { result ≡ is_page (kind_of ledger.now f) }
{
    kind(ledger, f) == Kind::Page
}

// The number of what frame f is if it is stored for guest g; otherwise as if it were the monitor's.
// Stays: a number, since its clause promises the very one that is stored, of no kind too, which Kind can't tell. Kind::from reads it.
pub fn kind_for(ledger: &[u32], f: u64, g: u64) -> u64
    requires ledger_sound { LedgerSound ledger.now }
    requires f_bound { f < size_of ledger.now }
    ensures { result ≡ kind_for (frames ledger.now) f g }
{
    if cells::of_frame(ledger, columns::GUEST, f) == g {
        cells::of_frame(ledger, columns::KIND, f)
    } else {
        u64::from(Kind::Monitor)
    }
}

#[tactic(auto, using(crate::proofs::Laws::Kinds::page_of_here))]
pub fn is_page_of(ledger: &[u32], f: u64, g: u64) -> bool
    requires ledger_sound { LedgerSound ledger.now }
    requires f_bound { f < size_of ledger.now }
    ensures { result ≡ is_page_of (kind_of ledger.now f) g }
{
    Kind::from(kind_for(ledger, f, g)) == Kind::Page
}

#[tactic(auto, using(crate::proofs::Laws::Fields::share_is, crate::proofs::Laws::Fields::count_is))]
fn cell(ledger: &[u32], f: u64, g: u64) -> Use
    requires ledger_sound { LedgerSound ledger.now }
    requires f_bound { f < size_of ledger.now }
    requires g_value { is_guest g ≡ true }
    ensures share { result.share ≡ shared_of ledger.now f g }
    ensures count { result.count ≡ count_of ledger.now f g }
    ensures fits { (result.share * share_unit + result.count < WORD_LIMIT) × (result.count < share_unit) }
{
    let stored = cells::of_frame(ledger, columns::CELLS + g, f);
    Use {
        share: stored / SHARE_UNIT,
        count: stored % SHARE_UNIT,
    }
}

#[tactic(auto, using(crate::proofs::Laws::Stores::cell_changed))]
fn set_cell(ledger: &mut [u32], f: u64, g: u64, theirs: Use)
    requires ledger_sound { LedgerSound ledger.old }
    requires f_bound { f < size_of ledger.old }
    requires g_value { is_guest g ≡ true }
    requires fits { (theirs.share * share_unit + theirs.count < WORD_LIMIT) × (theirs.count < share_unit) }
    ensures { Changed (with_cell f g theirs.share theirs.count) ledger.old ledger.new }
{
    let stored = theirs.share * SHARE_UNIT + theirs.count;
    cells::store_of_frame(ledger, columns::CELLS + g, f, stored);
}

// The number of what is shared with guest g.
// Stays: its clause promises the very number that is stored, and the cell has room for one above writing's, which Shared can't tell.
pub fn share(ledger: &[u32], f: u64, g: u64) -> u64
    requires ledger_sound { LedgerSound ledger.now }
    requires f_bound { f < size_of ledger.now }
    requires g_value { is_guest g ≡ true }
    ensures { result ≡ shared_of ledger.now f g }
{
    cell(ledger, f, g).share
}

// What is shared with guest g.
pub fn sharing(ledger: &[u32], f: u64, g: u64) -> Shared
    requires ledger_sound { LedgerSound ledger.now }
    requires f_bound { f < size_of ledger.now }
    requires g_value { is_guest g ≡ true }
    ensures { share_code result ≡ known_share (shared_of ledger.now f g) }
{
    Shared::from(share(ledger, f, g))
}

// In how many places guest g maps it.
pub fn count(ledger: &[u32], f: u64, g: u64) -> u64
    requires ledger_sound { LedgerSound ledger.now }
    requires f_bound { f < size_of ledger.now }
    requires g_value { is_guest g ≡ true }
    ensures { result ≡ count_of ledger.now f g }
{
    cell(ledger, f, g).count
}

pub fn set_share(ledger: &mut [u32], f: u64, g: u64, how: Shared)
    requires ledger_sound { LedgerSound ledger.old }
    requires f_bound { f < size_of ledger.old }
    requires g_value { is_guest g ≡ true }
    ensures { Changed (with_share f g (share_code how)) ledger.old ledger.new }
{
    let mut theirs = cell(ledger, f, g);
    theirs.share = u64::from(how);
    set_cell(ledger, f, g, theirs);
}

pub fn set_count(ledger: &mut [u32], f: u64, g: u64, c: u64)
    requires ledger_sound { LedgerSound ledger.old }
    requires f_bound { f < size_of ledger.old }
    requires g_value { is_guest g ≡ true }
    requires c_bound { c < share_unit }
    ensures { Changed (with_count f g c) ledger.old ledger.new }
{
    let mut theirs = cell(ledger, f, g);
    theirs.count = c;
    set_cell(ledger, f, g, theirs);
}

// Shared with nobody.
pub fn clear_shares(ledger: &mut [u32], f: u64)
    requires ledger_sound { LedgerSound ledger.old }
    requires f_bound { f < size_of ledger.old }
    ensures { Changed (with_no_shares f) ledger.old ledger.new }
{
    for g in 1..=GUESTS {
        set_share(ledger, f, g, Shared::Nothing);
    }
}

// What all guests together have of it: the places where they map it, and what is shared with them.
#[tactic(auto, using(crate::proofs::Laws::Fields::none_yet, crate::proofs::Laws::Fields::one_more, crate::proofs::Laws::Fields::all_told))]
pub fn uses(ledger: &[u32], f: u64) -> Totals
    requires ledger_sound { LedgerSound ledger.now }
    requires f_bound { f < size_of ledger.now }
    ensures { (result.places ≡ total (count_of ledger.now f)) × (result.shares ≡ total (shared_of ledger.now f)) }
{
    let mut places = 0;
    let mut shares = 0;
    for g in 1..=GUESTS {
        let theirs = cell(ledger, f, g);
        places += theirs.count;
        shares += theirs.share;
    }
    Totals { places, shares }
}
