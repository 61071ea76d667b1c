// Document 01: what an address translates to, whatever the memory image holds.
// Nothing is asked of the caller: numbers that do not fit are refused.
// Stays: level ≤ last_level in each contract inside, as in walk_level.
#![tactic(auto)]

ghost use Rattle.std.specs.Prelude.{◌≡◌};
ghost use Rattle.walk.specs.Memory.{image_fits};
ghost use Rattle.walk.specs.Both.{root_fits, stage2_fits, both_fits, answer_2, answer};

use stage_1::Sought;
use stage_2::Tables;
use walk_descriptor::{Access, ExceptionLevel};

mod stage_1;
mod stage_2;

pub use walk_descriptor::FaultKind;

// `fetched` is the number of descriptors that were read.
// Stays: the stage is a number, and Refused no Err, since the definitions (`as_answer`, `answer` of specs/Both) and the theorems on this
// type say them so.
#[derive(Clone, Copy)]
pub enum Answer {
    Found {
        address: u64,
        fetched: u64,
    },
    Fault {
        kind: FaultKind,
        stage: u64,
        level: u64,
        fetched: u64,
    },
    // A failure of stage 2 at `level`, while stage 1 fetched its descriptor of the level `of`.
    During {
        kind: FaultKind,
        level: u64,
        of: u64,
        fetched: u64,
    },
    Refused,
}

// Section 1: whether RAM of `len` bytes and `frames` frames from `base` is one that the document describes.
#[tactic(auto, unfolding(crate::specs::Memory::image_fits))]
fn fits_image(len: usize, base: u64, frames: u64) -> bool
    ensures { result ≡ image_fits len base frames }
{
    memory::ram_fits(base, frames) && len as u64 == memory::FRAME_BYTES * frames
}

#[tactic(auto, unfolding(crate::specs::Both::root_fits))]
fn fits_root(root: u64) -> bool
    ensures { result ≡ root_fits root }
{
    root % memory::FRAME_BYTES == 0 && root < memory::ADDRESS_END
}

// Section 5: which numbers are not refused.
#[tactic(auto, using(crate::proofs::Laws::Arguments::access_known), unfolding(crate::specs::Both::stage2_fits))]
fn fits_stage2(len: usize, base: u64, frames: u64, root: u64, ipa: u64, access: u64) -> bool
    ensures { result ≡ stage2_fits len base frames root ipa access }
{
    fits_image(len, base, frames)
        && fits_root(root)
        && Access::try_from(access).is_ok()
        && ipa < memory::ADDRESS_END
}

#[tactic(auto, using(crate::proofs::Laws::Arguments::access_known, crate::proofs::Laws::Arguments::level_known), unfolding(crate::specs::Both::both_fits))]
fn fits_both(
    len: usize,
    base: u64,
    frames: u64,
    root1: u64,
    root2: u64,
    access: u64,
    el: u64,
) -> bool
    ensures { result ≡ both_fits len base frames root1 root2 access el }
{
    fits_image(len, base, frames)
        && fits_root(root1)
        && fits_root(root2)
        && Access::try_from(access).is_ok()
        && ExceptionLevel::try_from(el).is_ok()
}

// Stage 2 alone: access is 0 to read, 1 to write, 2 to execute.
// Stays: this and both_stages take numbers, since C gives any, and `answer_2` and `answer` say which are refused.
pub fn stage2(ram: &[u8], base: u64, frames: u64, root: u64, ipa: u64, access: u64) -> Answer
    ensures { result ≡ answer_2 ram.now base frames root ipa access }
{
    match Access::try_from(access) {
        Ok(kind) if fits_stage2(ram.len(), base, frames, root, ipa, access) => {
            Tables { base, root }.answer(ram, kind, ipa, 0)
        }
        _ => Answer::Refused,
    }
}

// Both stages, at EL0 or EL1.
pub fn both_stages(
    ram: &[u8],
    base: u64,
    frames: u64,
    root1: u64,
    root2: u64,
    va: u64,
    access: u64,
    el: u64,
) -> Answer
    ensures { result ≡ answer ram.now base frames root1 root2 va access el }
{
    match (Access::try_from(access), ExceptionLevel::try_from(el)) {
        (Ok(kind), Ok(from)) if fits_both(ram.len(), base, frames, root1, root2, access, el) => {
            let stage_2 = Tables { base, root: root2 };
            Sought {
                stage_2,
                access: kind,
                el: from,
                va,
            }
            .both(ram, root1)
        }
        _ => Answer::Refused,
    }
}
