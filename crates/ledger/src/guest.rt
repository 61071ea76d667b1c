// A guest's row: whether it exists, whether it is dirty, its root table.
// A clause reads a constant of the code where the code has one of the name: so the definitions' have another here.
ghost use Rattle.std.specs.Prelude.{◌≡◌, ◌<◌, eqb};
ghost use Rattle.model.specs.State.{is_guest};
ghost use Rattle.ledger.specs.Columns.{GUEST_ROWS, WORD_LIMIT, ROW_WORDS, YES as yes};
ghost use Rattle.ledger.specs.Layout.{guest_rows, exists_of, dirty_of, root_of};
ghost use Rattle.ledger.specs.Fields.{with_existence, with_dirt, with_root_at};
ghost use Rattle.ledger.specs.LedgerSound.{LedgerSound, Changed};

use super::{GUESTS, cells, columns};

// "Guests are numbered 1 to 4"
pub fn is_guest(g: u64) -> bool
    ensures { result ≡ is_guest g }
{
    0 < g && g <= GUESTS
}

// Whether the cell of this column says yes.
fn says_yes(ledger: &[u32], column: u64, g: u64) -> bool
    requires ledger_sound { LedgerSound ledger.now }
    requires g_bound { (column < ROW_WORDS) × (g < GUEST_ROWS) }
    ensures { result ≡ eqb (guest_rows ledger.now column g) yes }
{
    cells::of_guest(ledger, column, g) == u64::from(true)
}

// Any number is asked for: there is no guest beyond the rows.
#[tactic(auto, unfolding(crate::specs::Layout::exists_in), using(crate::proofs::Laws::Cells::cell_none))]
pub fn exists(ledger: &[u32], g: u64) -> bool
    requires { LedgerSound ledger.now }
    ensures { result ≡ exists_of ledger.now g }
{
    g < columns::GUEST_ROWS && says_yes(ledger, columns::EXISTS, g)
}

#[tactic(auto, unfolding(crate::specs::Layout::dirty_in))]
pub fn dirty(ledger: &[u32], g: u64) -> bool
    requires ledger_sound { LedgerSound ledger.now }
    requires g_bound { g < GUEST_ROWS }
    ensures { result ≡ dirty_of ledger.now g }
{
    says_yes(ledger, columns::DIRTY, g)
}

#[tactic(auto, unfolding(crate::specs::Layout::root_in))]
pub fn root(ledger: &[u32], g: u64) -> u64
    requires ledger_sound { LedgerSound ledger.now }
    requires g_bound { g < GUEST_ROWS }
    ensures { result ≡ root_of ledger.now g }
{
    cells::of_guest(ledger, columns::ROOT, g)
}

// Stays: a function for each field, of one line over the cell (is_free and is_page, share and count, size and free as well): who calls
// says which field by its name, and the clauses are of different definitions.
#[tactic(auto, using(crate::proofs::Laws::Stores::existence_changed))]
pub fn set_existence(ledger: &mut [u32], g: u64, exists: bool)
    requires ledger_sound { LedgerSound ledger.old }
    requires g_bound { g < GUEST_ROWS }
    ensures { Changed (with_existence g exists) ledger.old ledger.new }
{
    cells::store_of_guest(ledger, columns::EXISTS, g, u64::from(exists));
}

#[tactic(auto, using(crate::proofs::Laws::Stores::dirt_changed))]
pub fn set_dirty(ledger: &mut [u32], g: u64, dirty: bool)
    requires ledger_sound { LedgerSound ledger.old }
    requires g_bound { g < GUEST_ROWS }
    ensures { Changed (with_dirt g dirty) ledger.old ledger.new }
{
    cells::store_of_guest(ledger, columns::DIRTY, g, u64::from(dirty));
}

#[tactic(auto, using(crate::proofs::Laws::Stores::root_changed))]
pub fn set_root(ledger: &mut [u32], g: u64, t: u64)
    requires ledger_sound { LedgerSound ledger.old }
    requires g_bound { (g < GUEST_ROWS) × (t < WORD_LIMIT) }
    ensures { Changed (with_root_at g t) ledger.old ledger.new }
{
    cells::store_of_guest(ledger, columns::ROOT, g, t);
}
