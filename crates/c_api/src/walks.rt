// Document 01: the walk, on any bytes.
// Stays: numbers and slices, and a function of its own for each of include/pageledger.h: that is the interface to C.
ghost use Rattle.walk.specs.Both.{answer_2, answer as answer_of};
ghost use Rattle.c_answers.specs.Numbers.{answer_numbers};
ghost use Rattle.c_answers.specs.Answers.{walk_answer, Tells};

use c_answers;

// Stage 2 alone: `access` is 0 to read, 1 to write, 2 to execute.
#[unsafe(no_mangle)]
pub extern "C" fn pageledger_stage2(
    ram: &[u8],
    base: u64,
    frames: u64,
    root: u64,
    ipa: u64,
    access: u64,
    out: &mut [u64],
) -> u64
    ensures { Tells answer_numbers (walk_answer (answer_2 ram.now base frames root ipa access))
        out.old result out.new }
{
    c_answers::tell_walk(out, walk::stage2(ram, base, frames, root, ipa, access))
}

// Both stages: `el` is 0 for EL0, 1 for EL1.
#[unsafe(no_mangle)]
pub extern "C" fn pageledger_both_stages(
    ram: &[u8],
    base: u64,
    frames: u64,
    root1: u64,
    root2: u64,
    va: u64,
    access: u64,
    el: u64,
    out: &mut [u64],
) -> u64
    ensures { Tells answer_numbers (walk_answer (answer_of ram.now base frames root1 root2 va access el))
        out.old result out.new }
{
    c_answers::tell_walk(
        out,
        walk::both_stages(ram, base, frames, root1, root2, va, access, el),
    )
}
