// Document 01, section 4: stage 2, whose tables lie in RAM.
ghost use Rattle.std.specs.Prelude.{◌≡◌, ◌+◌, ◌*◌, ◌<◌, ◌≤◌};
ghost use Rattle.memory.specs.Ram.{address_end};
ghost use Rattle.walk_descriptor.specs.Descriptor.{last_level};
ghost use Rattle.walk_descriptor.specs.Numbers.{access_number};
ghost use Rattle.walk.specs.Both.{stage_2, as_answer_2};
ghost use Rattle.walk.specs.Steps.{most_before_last, step_at, with_count, ended};

use super::Answer;
use walk_descriptor::{Access, AtStage2, FaultKind, Rights, Stage};
use walk_level::{Asked, Step};

// The descriptor at the physical address `a`, for what a stage is asked; RAM begins at `base`.
#[tactic(auto, unfolding(crate::specs::Steps::step_at, crate::specs::Memory::read_at))]
pub(crate) fn visit<R: Rights>(ram: &[u8], base: u64, asked: Asked<R>, level: u64, a: u64) -> Step
    requires { (level ≤ last_level) × (a < 2 * address_end) }
    ensures { result ≡ step_at ram.now base (R.rights_of asked.wanted) asked.ia level a }
{
    if base <= a && (a - base) as usize + walk_descriptor::DESCRIPTOR_BYTES as usize <= ram.len() {
        asked.comes_to(level, memory::word(ram, (a - base) as usize))
    } else {
        Step::Absent
    }
}

// How a walk of stage 2 ended, and how many descriptors had been fetched then.
#[derive(Clone, Copy)]
pub(crate) struct Reached {
    pub address: u64,
    pub fetched: u64,
}

#[derive(Clone, Copy)]
pub(crate) struct Failed {
    pub kind: FaultKind,
    pub level: u64,
    pub fetched: u64,
}

pub(crate) type Ended = Result<Reached, Failed>;

// Stage 2's tables, in RAM that begins at `base`.
#[derive(Clone, Copy)]
pub(crate) struct Tables {
    pub base: u64,
    pub root: u64,
    ghost root_low: { root < address_end },
}

impl Tables {
    // `before` descriptors were fetched on the way here.
    pub(crate) fn walk(self, ram: &[u8], access: Access, ipa: u64, before: u64) -> Ended
        requires { before ≤ most_before_last }
        ensures { result ≡ ended before (stage_2 ram.now self.base self.root (access_number access) ipa) }
    {
        let wanted = AtStage2 { access };
        let asked = Asked { wanted, ia: ipa };
        let mut level: u64 = 0;
        let mut table = self.root;
        // Stays: with a `for` over the levels a walk of both stages took 1.11 times as long as plain C, past the bar of docs/BENCHMARK.md,
        // where with this loop it took 0.98.
        'levels: loop {
            let a = walk_level::slot(level, ipa, table);
            let fetched = before + level + 1;
            match visit(ram, self.base, asked, level, a) {
                Step::Down(next) => {
                    table = next;
                    level += 1;
                }
                Step::Output(address) => return Ok(Reached { address, fetched }),
                Step::Fail(kind) => {
                    return Err(Failed {
                        kind,
                        level,
                        fetched,
                    });
                }
                Step::Absent => {
                    return Err(Failed {
                        kind: FaultKind::WalkAbort,
                        level,
                        fetched: before + level,
                    });
                }
            }
        }
    }

    // Stage 2 as the last part of a walk: its end is the answer.
    pub(crate) fn answer(self, ram: &[u8], access: Access, ipa: u64, before: u64) -> Answer
        requires { before ≤ most_before_last }
        ensures { result ≡ with_count as_answer_2 before (stage_2 ram.now self.base self.root (access_number access) ipa) }
    {
        match self.walk(ram, access, ipa, before) {
            Ok(reached) => Answer::Found {
                address: reached.address,
                fetched: reached.fetched,
            },
            Err(failed) => Answer::Fault {
                kind: failed.kind,
                stage: Stage::Two as u64,
                level: failed.level,
                fetched: failed.fetched,
            },
        }
    }
}
