// Document 01, sections 2 and 4: where the descriptor of a level stands, and what it comes to there.
// Stays: level ≤ last_level in each contract. slot and examine are public and take a number; a type for a level would be made at each call.
#![tactic(auto)]

ghost use Rattle.std.specs.Prelude.{◌≡◌, cond, ◌&&◌, ◌+◌, ◌*◌, ◌-◌, ◌<◌, ◌≤◌, ◌^◌, ◌/◌, ◌%◌, eqb};
ghost use Rattle.walk_descriptor.specs.declared.FaultKind.TheVariants.{NotModelled, AccessFlag, Permission};
ghost use Rattle.memory.specs.Ram.{address_end};
ghost use Rattle.walk_descriptor.specs.Descriptor.{last_level, span as span_of, slot as slot_of, bit, address as address_of, bits_50_to_48, bits_63_to_59, allows};
ghost use Rattle.walk_level.specs.Stage.{leaf as leaf_of};
ghost use Rattle.walk_level.specs.Step.{step_rules, step_of};
ghost use Rattle.walk_level.specs.declared.Step.TheVariants.{Down, Output, Fail};

use walk_descriptor::{FaultKind, Rights, Wanted};

// What a descriptor is divided by for the bit of this number.
const BIT_10: u64 = 0x400;

const BIT_12: u64 = 0x1000;

const BIT_48: u64 = 0x1000000000000;

const BIT_59: u64 = 0x800000000000000;

// Above bit 47 once bits 11..0 are gone.
const BIT_36: u64 = 0x1000000000;

// Where the index of level 0 starts, and how many bits an index has.
const FIRST_INDEX: u64 = 39;

const INDEX_BITS: u64 = 9;

// What the descriptor at an address comes to; Absent where it is not in RAM.
// Stays: Absent is no None, since `step_at` of walk, which theorems are about, has it beside the others.
#[derive(Clone, Copy)]
pub enum Step {
    Absent,
    Down(u64),
    Output(u64),
    Fail(FaultKind),
}

// The bytes of the input address that a descriptor of a level covers.
fn span(level: u64) -> u64
    requires { level ≤ last_level }
    ensures { (result ≡ span_of level) × (0 < result) × (result ≤ 2 ^ 39) }
{
    1 << (FIRST_INDEX - INDEX_BITS * level)
}

// The address of the descriptor for the input address `ia` in a table of a level.
#[tactic(auto, unfolding(walk_descriptor::specs::Descriptor::slot))]
pub fn slot(level: u64, ia: u64, table: u64) -> u64
    requires { (level ≤ last_level) × (table < address_end) }
    ensures { (result ≡ slot_of level ia table) × (result < 2 * address_end) }
{
    table + walk_descriptor::DESCRIPTOR_BYTES * (ia / span(level) % walk_descriptor::TABLE_ENTRIES)
}

// Where x stands in its block of `size` bytes.
fn offset_in(x: u64, size: u64) -> u64
    requires { 0 < size }
    ensures { (result ≡ x % size) × (result < size) }
{
    x % size
}

// Bits 47..12.
fn address(d: u64) -> u64
    ensures { (result ≡ address_of d) × (result < address_end) }
{
    d / BIT_12 % BIT_36 * BIT_12
}

fn bits_50_to_48_clear(d: u64) -> bool
    ensures { result ≡ eqb (bits_50_to_48 d) 0 }
{
    d / BIT_48 % 8 == 0
}

fn table(d: u64) -> Step
    ensures { result ≡ cond (eqb (bits_50_to_48 d) 0 && eqb (bits_63_to_59 d) 0) (Down (address_of d)) (Fail NotModelled) }
{
    if bits_50_to_48_clear(d) && d / BIT_59 == 0 {
        Step::Down(address(d))
    } else {
        Step::Fail(FaultKind::NotModelled)
    }
}

// What a stage is asked: what is wanted at the input address `ia`.
#[derive(Clone, Copy)]
pub struct Asked<R> {
    pub wanted: R,
    pub ia: u64,
}

impl<R: Rights> Asked<R> {
    // A block or page with the output address `out`.
    fn leaf(self, d: u64, out: u64) -> Step
        ensures { result ≡ cond (eqb (bit 10 d) 0) (Fail AccessFlag)
            (cond (R.rights_of self.wanted d) (Output out) (Fail Permission)) }
    {
        if d / BIT_10 % 2 == 0 {
            Step::Fail(FaultKind::AccessFlag)
        } else if self.wanted.allowed_by(d) {
            Step::Output(out)
        } else {
            Step::Fail(FaultKind::Permission)
        }
    }

    #[tactic(auto, unfolding(crate::specs::Stage::leaf))]
    fn block_or_page(self, level: u64, d: u64) -> Step
        requires { level ≤ last_level }
        ensures { result ≡ cond (eqb (bits_50_to_48 d) 0 && eqb (address_of d % span_of level) 0)
            (leaf_of (step_rules (R.rights_of self.wanted)) self.ia level d) (Fail NotModelled) }
    {
        let size = span(level);
        let start = address(d);
        if bits_50_to_48_clear(d) && offset_in(start, size) == 0 {
            self.leaf(d, start + offset_in(self.ia, size))
        } else {
            Step::Fail(FaultKind::NotModelled)
        }
    }

    // Section 4, points 2 to 5. Each part is called from one place, so that the compiler puts the whole into the walks.
    #[tactic(auto, unfolding(crate::specs::Step::step_of, crate::specs::Stage::meaning, crate::specs::Stage::valid))]
    pub fn comes_to(self, level: u64, d: u64) -> Step
        requires { level ≤ last_level }
        ensures { result ≡ step_of (R.rights_of self.wanted) self.ia level d }
    {
        if walk_descriptor::is_table(level, d) {
            table(d)
        } else if walk_descriptor::is_block_or_page(level, d) {
            self.block_or_page(level, d)
        } else {
            Step::Fail(FaultKind::Translation)
        }
    }
}

// Stays: docs/assurance/document-01.md names it, and it answers for every number (`allows`).
pub fn examine(stage: u64, access: u64, el: u64, ia: u64, level: u64, d: u64) -> Step
    requires { level ≤ last_level }
    ensures { result ≡ step_of (allows stage access el) ia level d }
{
    let wanted = Wanted::of_numbers(stage, access, el);
    Asked { wanted, ia }.comes_to(level, d)
}
