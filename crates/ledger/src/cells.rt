// The cells of the ledger's rows, for this crate and ledger_free: the only functions that know where a cell lies.
// A clause reads a constant of the code where the code has one of the name: so the definitions' have another here.
// Stays: a column is a number and no enum of columns, since a guest's cell is in column CELLS + g; and what is asked of it and of the row
// stands in the four contracts, since slices are parameters (docs/DECISIONS.md, 60).
ghost use Rattle.std.specs.Prelude.{◌≡◌, ◌+◌, ◌*◌, ◌<◌, ◌≤◌, length};
ghost use Rattle.ledger.specs.Cells.{store};
ghost use Rattle.ledger.specs.Columns.{ROW_WORDS as row_words, HEADER_WORDS as header_words, GUEST_ROWS, WORD_LIMIT, room_for_frames};
ghost use Rattle.ledger.specs.Layout.{frames, guest_rows, Row};

use super::columns::{HEADER_WORDS, ROW_WORDS};

// The guests' rows begin where the ledger does; row 0 of them is the header.
const GUESTS_BEGIN: u64 = 0;

// Where a cell lies in rows that begin at a word.
fn place(begin: u64, column: u64, row: u64) -> usize
    requires { (begin ≤ header_words) × (column < row_words) × (row < room_for_frames) }
    ensures { result ≡ begin + row_words * row + column }
{
    (begin + ROW_WORDS * row + column) as usize
}

#[tactic(auto, using(crate::proofs::Laws::Cells::cell_at))]
pub fn of_frame(ledger: &[u32], column: u64, f: u64) -> u64
    requires { (column < row_words) × Row ledger.now f }
    ensures { (result ≡ frames ledger.now column f) × (result < WORD_LIMIT) }
{
    u64::from(ledger[place(HEADER_WORDS, column, f)])
}

#[tactic(auto, unfolding(crate::specs::Cells::store))]
pub fn store_of_frame(ledger: &mut [u32], column: u64, f: u64, v: u64)
    requires { (column < row_words) × (v < WORD_LIMIT) × Row ledger.old f }
    ensures { ledger.new ≡ store header_words ledger.old column f v }
{
    ledger[place(HEADER_WORDS, column, f)] = v as u32;
}

// Stays: beside of_frame, and store_of_guest beside store_of_frame, over one `place`: which rows there are is asked otherwise of each.
#[tactic(auto, using(crate::proofs::Laws::Cells::cell_at))]
pub fn of_guest(ledger: &[u32], column: u64, g: u64) -> u64
    requires { (column < row_words) × (g < GUEST_ROWS) × (header_words ≤ length ledger.now) }
    ensures { (result ≡ guest_rows ledger.now column g) × (result < WORD_LIMIT) }
{
    u64::from(ledger[place(GUESTS_BEGIN, column, g)])
}

#[tactic(auto, unfolding(crate::specs::Cells::store))]
pub fn store_of_guest(ledger: &mut [u32], column: u64, g: u64, v: u64)
    requires { (column < row_words) × (v < WORD_LIMIT) × (g < GUEST_ROWS) × (header_words ≤ length ledger.old) }
    ensures { ledger.new ≡ store 0 ledger.old column g v }
{
    ledger[place(GUESTS_BEGIN, column, g)] = v as u32;
}
