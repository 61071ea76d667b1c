// The ledger right after set-up: the first k frames are the monitor's, and every other is free, the lowest first in order.
// Stays: the bound on n stands in each contract: n is a plain number, and no ledger is there yet that would hold it.
ghost use Rattle.std.specs.Prelude.{◌≡◌, ◌+◌, ◌-◌, ◌<◌, ◌≤◌, length};
ghost use Rattle.ledger.specs.Kinds.{kind_code};
ghost use Rattle.ledger.specs.Layout.{words_for};
ghost use Rattle.ledger.specs.Columns.{room_for_frames, HEADER_WORDS};
ghost use Rattle.ledger_free.specs.Start.{kind_first, Filled, ram_stored, LaidOut};

use super::{place, store_kind};
use ledger::kinds::Kind;
use ledger::{cells, columns};
use memory::FRAME_BYTES;

fn first_kind(f: u64, k: u64) -> Kind
    ensures { kind_code result ≡ kind_first f k }
{
    if f < k { Kind::Monitor } else { Kind::Free }
}

#[tactic(auto, using(crate::proofs::Laws::Start::filled_more))]
fn fill_row(ledger: &mut [u32], n: u64, k: u64, f: u64)
    requires filled { Filled n k f ledger.old }
    requires f_lt_n { (f < n) × (n ≤ room_for_frames) }
    ensures { Filled n k (f + 1) ledger.new }
{
    store_kind(ledger, f, first_kind(f, k));
    place(ledger, f, n - 1 - f);
}

fn fill(ledger: &mut [u32], n: u64, k: u64)
    requires { (length ledger.old ≡ words_for n) × (n ≤ room_for_frames) }
    ensures { Filled n k n ledger.new }
{
    ledger.fill(0);
    for f in 0..n {
        fill_row(ledger, n, k, f);
    }
}

// b / 4096 in two parts, and n.
#[tactic(auto, unfolding(crate::specs::Start::ram_stored))]
fn store_ram(ledger: &mut [u32], first: u64, n: u64)
    requires { (HEADER_WORDS ≤ length ledger.old) × (n ≤ room_for_frames) }
    ensures { ledger.new ≡ ram_stored ledger.old first n }
{
    cells::store_of_guest(ledger, columns::FRAME_COUNT, columns::HEADER, n);
    cells::store_of_guest(
        ledger,
        columns::FIRST_LOW,
        columns::HEADER,
        first % columns::WORD_LIMIT,
    );
    cells::store_of_guest(
        ledger,
        columns::FIRST_HIGH,
        columns::HEADER,
        first / columns::WORD_LIMIT,
    );
}

#[tactic(auto, using(crate::proofs::Laws::Start::laid_out))]
pub fn lay_out(ledger: &mut [u32], b: u64, n: u64, k: u64)
    requires { (length ledger.old ≡ words_for n) × (n ≤ room_for_frames) × (k < n) }
    ensures { LaidOut b n k ledger.new }
{
    fill(ledger, n, k);
    store_ram(ledger, b / FRAME_BYTES, n);
    cells::store_of_guest(ledger, columns::FREE_COUNT, columns::HEADER, n - k);
}
