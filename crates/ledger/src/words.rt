// The words of a frame in RAM.
ghost use Rattle.std.specs.Prelude.{◌≡◌, ◌+◌, ◌*◌, ◌<◌};
ghost use Rattle.model.specs.Base.{upd, upd2};
ghost use Rattle.model.specs.State.{page_count};
ghost use Rattle.model.specs.Changes.{zeros};
ghost use Rattle.ledger.specs.Layout.{word_of};
ghost use Rattle.ledger.specs.Words.{Within};

use memory::FRAME_BYTES;

const WORD_BYTES: u64 = 8;

// Where word i of frame f lies.
fn place(f: u64, i: u64) -> usize
    requires { (i < 512) × (f < page_count) }
    ensures { result ≡ f * 4096 + i * 8 }
{
    (f * FRAME_BYTES + i * WORD_BYTES) as usize
}

// Entry i of the table in frame f.
// Stays: what is asked of f and i stands in each contract: RAM is a slice, and slices are parameters (docs/DECISIONS.md, 60).
#[tactic(auto, using(crate::proofs::Laws::Words::word_is))]
pub fn entry(ram: &[u8], f: u64, i: u64) -> u64
    requires { (i < 512) × (f < page_count) × Within ram.now f }
    ensures { result ≡ word_of ram.now f i }
{
    memory::word(ram, place(f, i))
}

#[tactic(auto, using(crate::proofs::Laws::Words::word_stored))]
pub fn store_entry(ram: &mut [u8], f: u64, i: u64, x: u64)
    requires { (i < 512) × (f < page_count) × Within ram.old f }
    ensures { word_of ram.new ≡ upd2 (word_of ram.old) f i x }
{
    memory::store_word(ram, place(f, i), x);
}

// All its bytes become 0.
#[tactic(auto, using(crate::proofs::Laws::Words::word_cleared))]
pub fn clear_frame(ram: &mut [u8], f: u64)
    requires { (f < page_count) × Within ram.old f }
    ensures { word_of ram.new ≡ upd (word_of ram.old) f zeros }
{
    memory::clear(ram, place(f, 0), FRAME_BYTES as usize);
}
