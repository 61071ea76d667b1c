// What a host may ask of the two slices; nothing but the lent array for the answer is changed.
// Stays: numbers and slices, and a function of its own for each of include/pageledger.h: that is the interface to C.
ghost use Rattle.std.specs.Prelude.{◌≡◌};
ghost use Rattle.ledger.specs.Layout.{state_of};
ghost use Rattle.ledger.specs.Sound.{Sound};
ghost use Rattle.monitor_query.specs.Questions.{frame_told, share_told, guest_told, translated};
ghost use Rattle.c_answers.specs.Numbers.{answer_numbers, frame_numbers, guest_numbers};
ghost use Rattle.c_answers.specs.Answers.{walk_answer, frame_answer, guest_answer, Tells};

use c_answers;

// What a frame is.
#[unsafe(no_mangle)]
pub extern "C" fn pageledger_frame(ram: &[u8], ledger: &[u32], frame: u64, out: &mut [u64]) -> u64
    requires { Sound ram.now ledger.now }
    ensures { Tells frame_numbers (frame_answer (frame_told (state_of ram.now ledger.now) frame))
        out.old result out.new }
{
    c_answers::tell_frame(out, monitor_query::what_frame(ram, ledger, frame))
}

// What of a frame is shared with a guest: 0 nothing, 1 reading, 2 writing too.
#[unsafe(no_mangle)]
pub extern "C" fn pageledger_shared_with(ram: &[u8], ledger: &[u32], frame: u64, guest: u64) -> u64
    requires { Sound ram.now ledger.now }
    ensures { result ≡ share_told (state_of ram.now ledger.now) frame guest }
{
    monitor_query::shared_with(ram, ledger, frame, guest)
}

// What a guest is.
#[unsafe(no_mangle)]
pub extern "C" fn pageledger_guest(ram: &[u8], ledger: &[u32], guest: u64, out: &mut [u64]) -> u64
    requires { Sound ram.now ledger.now }
    ensures { Tells guest_numbers (guest_answer (guest_told (state_of ram.now ledger.now) guest))
        out.old result out.new }
{
    c_answers::tell_guest(out, monitor_query::what_guest(ram, ledger, guest))
}

// Stage 2 alone from a guest's root: `access` is 0 to read, 1 to write, 2 to execute.
#[unsafe(no_mangle)]
pub extern "C" fn pageledger_translation(
    ram: &[u8],
    ledger: &[u32],
    guest: u64,
    ipa: u64,
    access: u64,
    out: &mut [u64],
) -> u64
    requires { Sound ram.now ledger.now }
    ensures { Tells answer_numbers (walk_answer (translated ram.now ledger.now guest ipa access))
        out.old result out.new }
{
    c_answers::tell_walk(
        out,
        monitor_query::translation(ram, ledger, guest, ipa, access),
    )
}
