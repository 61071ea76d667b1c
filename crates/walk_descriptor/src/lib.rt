// Document 01, section 3: of what kind a 64-bit descriptor is at a level, and what its rights allow.
#![tactic(auto)]

ghost use Rattle.std.specs.Prelude.{ℕ, Bool, ◌≡◌, ◌||◌};
ghost use Rattle.walk_descriptor.specs.Descriptor.{kinds_of_access, exception_levels, is_table as table_of, is_block, is_page, reads_1, writes_1, executes_1, allows_1, allows_2, allows};
ghost use Rattle.walk_descriptor.specs.Numbers.{access_number, el_number, stage_1_rights, stage_2_rights, rights_of, Reads};

// "Both stages have levels 0 to 3. A table is one frame of 512 descriptors."
pub const LAST_LEVEL: u64 = 3;

pub const TABLE_ENTRIES: u64 = 512;

pub const DESCRIPTOR_BYTES: u64 = 8;

// Stages, kinds of access and exception levels, with document 01's numbers.
#[derive(Clone, Copy, PartialEq, Eq)]
pub enum Stage {
    One = 1,
    Two = 2,
}

#[derive(Clone, Copy, PartialEq, Eq)]
pub enum Access {
    Read = 0,
    Write = 1,
    Execute = 2,
}

#[derive(Clone, Copy, PartialEq, Eq)]
pub enum ExceptionLevel {
    El0 = 0,
    El1 = 1,
}

// A number that is no kind of access, or no exception level.
#[derive(Clone, Copy, PartialEq, Eq)]
pub struct NoSuch(pub u64);

impl TryFrom<u64> for Access {
    type Error = NoSuch;

    ghost try_from_gives = { Reads access_number kinds_of_access };

    fn try_from(number: u64) -> Result<Self, NoSuch> {
        match number {
            0 => Ok(Access::Read),
            1 => Ok(Access::Write),
            2 => Ok(Access::Execute),
            _ => Err(NoSuch(number)),
        }
    }
}

impl TryFrom<u64> for ExceptionLevel {
    type Error = NoSuch;

    ghost try_from_gives = { Reads el_number exception_levels };

    fn try_from(number: u64) -> Result<Self, NoSuch> {
        match number {
            0 => Ok(ExceptionLevel::El0),
            1 => Ok(ExceptionLevel::El1),
            _ => Err(NoSuch(number)),
        }
    }
}

// Why a walk failed.
#[derive(Clone, Copy, PartialEq, Eq)]
pub enum FaultKind {
    WalkAbort,
    Translation,
    NotModelled,
    AccessFlag,
    Permission,
}

// Bits 1..0 of a table and of a page, and those of a block.
const TABLE_OR_PAGE: u64 = 3;

const BLOCK: u64 = 1;

// What a descriptor is divided by for the bit of this number.
const BIT_6: u64 = 0x40;

const BIT_7: u64 = 0x80;

const BIT_53: u64 = 0x20000000000000;

const BIT_54: u64 = 0x40000000000000;

pub fn is_table(level: u64, d: u64) -> bool
    ensures { result ≡ table_of level d }
{
    d % 4 == TABLE_OR_PAGE && level < LAST_LEVEL
}

pub fn is_block_or_page(level: u64, d: u64) -> bool
    ensures { result ≡ (is_block level d || is_page level d) }
{
    match d % 4 {
        TABLE_OR_PAGE => level == LAST_LEVEL,
        BLOCK => 0 < level && level < LAST_LEVEL,
        _ => false,
    }
}

#[tactic(auto, unfolding(crate::specs::Descriptor::allows_2))]
fn allows_stage_2(access: Access, d: u64) -> bool
    ensures { result ≡ allows_2 (access_number access) d }
{
    match access {
        Access::Read => d / BIT_6 % 2 == 1,
        Access::Write => d / BIT_7 % 2 == 1,
        Access::Execute => d / BIT_54 % 2 == 0,
    }
}

fn reads_stage_1(el: ExceptionLevel, d: u64) -> bool
    ensures { result ≡ reads_1 (el_number el) d }
{
    el == ExceptionLevel::El1 || d / BIT_6 % 2 == 1
}

fn writes_stage_1(el: ExceptionLevel, d: u64) -> bool
    ensures { result ≡ writes_1 (el_number el) d }
{
    d / BIT_7 % 2 == 0 && reads_stage_1(el, d)
}

fn executes_stage_1(el: ExceptionLevel, d: u64) -> bool
    ensures { result ≡ executes_1 (el_number el) d }
{
    match el {
        ExceptionLevel::El0 => d / BIT_54 % 2 == 0,
        ExceptionLevel::El1 => d / BIT_53 % 2 == 0 && !(d / BIT_6 % 2 == 1 && d / BIT_7 % 2 == 0),
    }
}

#[tactic(auto, unfolding(crate::specs::Descriptor::allows_1))]
fn allows_stage_1(access: Access, el: ExceptionLevel, d: u64) -> bool
    ensures { result ≡ allows_1 (access_number access) (el_number el) d }
{
    match access {
        Access::Read => reads_stage_1(el, d),
        Access::Write => writes_stage_1(el, d),
        Access::Execute => executes_stage_1(el, d),
    }
}

// What is wanted of a descriptor, which the rights in it allow or not. Each stage has a type of its own, so that the code of a walk has no
// branch on the stage.
pub trait Rights: Copy {
    ghost rights_of: { Self → ℕ → Bool };

    fn allowed_by(self, d: u64) -> bool
        ensures { result ≡ rights_of self d };
}

#[derive(Clone, Copy)]
pub struct AtStage1 {
    pub access: Access,
    pub el: ExceptionLevel,
}

impl Rights for AtStage1 {
    ghost rights_of = { stage_1_rights };

    fn allowed_by(self, d: u64) -> bool {
        allows_stage_1(self.access, self.el, d)
    }
}

// Stage 2 doesn't look at the exception level.
#[derive(Clone, Copy)]
pub struct AtStage2 {
    pub access: Access,
}

impl Rights for AtStage2 {
    ghost rights_of = { stage_2_rights };

    fn allowed_by(self, d: u64) -> bool {
        allows_stage_2(self.access, d)
    }
}

// The same where a stage is told by its number.
#[derive(Clone, Copy)]
pub enum Wanted {
    Stage1(AtStage1),
    Stage2(AtStage2),
}

impl Wanted {
    // Stays: of any numbers, for allowed and walk_level::examine (docs/DECISIONS.md, 61). One that is no stage is as 1, no kind of access
    // as 2, no exception level as 0.
    pub fn of_numbers(stage: u64, access: u64, el: u64) -> Wanted
        ensures { rights_of result ≡ allows stage access el }
    {
        let access = Access::try_from(access).unwrap_or(Access::Execute);
        let el = ExceptionLevel::try_from(el).unwrap_or(ExceptionLevel::El0);
        if stage == Stage::Two as u64 {
            Wanted::Stage2(AtStage2 { access })
        } else {
            Wanted::Stage1(AtStage1 { access, el })
        }
    }
}

impl Rights for Wanted {
    ghost rights_of = { rights_of };

    fn allowed_by(self, d: u64) -> bool {
        match self {
            Wanted::Stage1(at) => at.allowed_by(d),
            Wanted::Stage2(at) => at.allowed_by(d),
        }
    }
}

// Stays: docs/assurance/document-01.md names it, and it answers for every number (`allows`).
pub fn allowed(stage: u64, access: u64, el: u64, d: u64) -> bool
    ensures { result ≡ allows stage access el d }
{
    Wanted::of_numbers(stage, access, el).allowed_by(d)
}
