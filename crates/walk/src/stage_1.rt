// Document 01, section 5: stage 1, whose tables lie at guest-physical addresses, so that each descriptor is reached through stage 2.
ghost use Rattle.std.specs.Prelude.{◌≡◌, ◌+◌, ◌-◌, ◌<◌, ◌≤◌};
ghost use Rattle.memory.specs.Ram.{address_end};
ghost use Rattle.walk_descriptor.specs.Descriptor.{last_level};
ghost use Rattle.walk_descriptor.specs.Numbers.{access_number, el_number};
ghost use Rattle.walk.specs.Both.{both as both_of, stage_1};
ghost use Rattle.walk.specs.Steps.{most_by_level, most_before_last, answered, from_table_1, from_descriptor_1, LevelComesTo};

use super::Answer;
use super::stage_2::{self, Tables};
use std::ops::ControlFlow;
use walk_descriptor::{Access, AtStage1, ExceptionLevel, FaultKind, Stage};
use walk_level::{Asked, Step};

// A table of stage 1 at a guest-physical address, and how many descriptors were fetched on the way to it.
#[derive(Clone, Copy)]
pub(crate) struct NextTable {
    pub table: u64,
    pub fetched: u64,
}

// What a level of stage 1 came to: the next table, or the answer.
type LevelOutcome = ControlFlow<Answer, NextTable>;

// What both stages are asked for a virtual address.
#[derive(Clone, Copy)]
pub(crate) struct Sought {
    pub stage_2: Tables,
    pub access: Access,
    pub el: ExceptionLevel,
    pub va: u64,
}

impl Sought {
    // The descriptor of a level, which was reached at the physical address `a`; `before` descriptors were fetched on the way here.
    fn from_descriptor(self, ram: &[u8], level: u64, a: u64, before: u64) -> LevelOutcome
        requires { (level ≤ last_level) × (a < address_end) × (before + 1 ≤ most_before_last) }
        ensures { LevelComesTo ram.now self.stage_2.base self.stage_2.root (access_number self.access) (el_number self.el) self.va level
            (before + 1) (answered before (from_descriptor_1 ram.now self.stage_2.base self.stage_2.root (access_number self.access)
            (el_number self.el) self.va level a)) result }
    {
        let asked = Asked {
            wanted: AtStage1 {
                access: self.access,
                el: self.el,
            },
            ia: self.va,
        };
        match stage_2::visit(ram, self.stage_2.base, asked, level, a) {
            Step::Down(table) => ControlFlow::Continue(NextTable {
                table,
                fetched: before + 1,
            }),
            Step::Output(ipa) => {
                ControlFlow::Break(self.stage_2.answer(ram, self.access, ipa, before + 1))
            }
            Step::Fail(kind) => ControlFlow::Break(Answer::Fault {
                kind,
                stage: Stage::One as u64,
                level,
                fetched: before + 1,
            }),
            Step::Absent => ControlFlow::Break(Answer::Fault {
                kind: FaultKind::WalkAbort,
                stage: Stage::One as u64,
                level,
                fetched: before,
            }),
        }
    }

    // One level of stage 1: its descriptor goes through stage 2 as a read.
    fn one_level(self, ram: &[u8], level: u64, at: NextTable) -> LevelOutcome
        requires { (level ≤ last_level) × (at.table < address_end) × (at.fetched + most_by_level ≤ most_before_last) }
        ensures { LevelComesTo ram.now self.stage_2.base self.stage_2.root (access_number self.access) (el_number self.el) self.va level
            (at.fetched + most_by_level) (answered at.fetched (from_table_1 ram.now self.stage_2.base self.stage_2.root
            (access_number self.access) (el_number self.el) self.va (last_level - level) at.table)) result }
    {
        let ipa = walk_level::slot(level, self.va, at.table);
        match self.stage_2.walk(ram, Access::Read, ipa, at.fetched) {
            Ok(reached) => self.from_descriptor(ram, level, reached.address, reached.fetched),
            Err(failed) => ControlFlow::Break(Answer::During {
                kind: failed.kind,
                level: failed.level,
                of: level,
                fetched: failed.fetched,
            }),
        }
    }

    fn walk(self, ram: &[u8], root1: u64) -> Answer
        requires { root1 < address_end }
        ensures { result ≡ answered 0 (stage_1 ram.now self.stage_2.base root1 self.stage_2.root self.va (access_number self.access)
            (el_number self.el)) }
    {
        let mut at = NextTable {
            table: root1,
            fetched: 0,
        };
        'levels: for level in 0..=walk_descriptor::LAST_LEVEL {
            match self.one_level(ram, level, at) {
                ControlFlow::Continue(next) => at = next,
                ControlFlow::Break(answer) => return answer,
            }
        }
        // No descriptor of the last level leads on.
        unreachable!()
    }

    #[tactic(auto, unfolding(crate::specs::Both::both, crate::specs::Steps::with_count))]
    pub(crate) fn both(self, ram: &[u8], root1: u64) -> Answer
        requires { root1 < address_end }
        ensures { result ≡ answered 0 (both_of ram.now self.stage_2.base root1 self.stage_2.root self.va (access_number self.access)
            (el_number self.el)) }
    {
        if self.va < memory::ADDRESS_END {
            return self.walk(ram, root1);
        }
        Answer::Fault {
            kind: FaultKind::Translation,
            stage: Stage::One as u64,
            level: 0,
            fetched: 0,
        }
    }
}
