// The stored ledger of document 03, section 1, in a lent slice outside RAM; specs/Layout.antt tells how it lies there.
// A function that stores says by Changed what becomes of the state of the two slices, and no caller sees where.
// Stays: what the contracts ask of a ledger, a frame and a guest (LedgerSound, f < size_of, is_guest g) stands in each of them: slices are
// parameters (docs/DECISIONS.md, 60), and each clause is about the number f or g, which a type of its own would hand back at each call.
#![tactic(auto)]

ghost use Rattle.std.specs.Prelude.{◌≡◌, ◌≤◌};
ghost use Rattle.ledger.specs.Columns.{room_for_frames};
ghost use Rattle.ledger.specs.Layout.{words_for};

pub mod cells;
pub mod columns;
pub mod frame;
pub mod guest;
pub mod header;
pub mod kinds;
pub mod words;

// "Guests are numbered 1 to 4"
pub const GUESTS: u64 = 4;

// How many words a ledger of so many frames has.
pub fn words_for(frames: u64) -> u64
    requires { frames ≤ room_for_frames }
    ensures { result ≡ words_for frames }
{
    columns::HEADER_WORDS + columns::ROW_WORDS * frames
}
