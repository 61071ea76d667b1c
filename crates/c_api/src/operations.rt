// Document 03: set-up and the nine operations. Each promises what the monitor's function of that name promises, of the answer's number.
// Stays: numbers and slices, as include/pageledger.h has them, and a function of its own for each: a refusal is turned into its number.
ghost use Rattle.std.specs.Prelude.{◌≡◌};
ghost use Rattle.std.proofs.Math.Option.{none, some};
ghost use Rattle.model.specs.Machine.{Map, Unmap};
ghost use Rattle.ledger.specs.Layout.{pick_of};
ghost use Rattle.ledger.specs.Sound.{Sound};
ghost use Rattle.monitor.specs.Answers.{Answers};
ghost use Rattle.monitor.specs.SetUp.{SetUp};
ghost use Rattle.monitor.specs.Create.{creating};
ghost use Rattle.monitor.specs.Give.{giving};
ghost use Rattle.monitor.specs.Map.{mapping as mapping_of};
ghost use Rattle.monitor.specs.Unmap.{unmapping};
ghost use Rattle.monitor.specs.Found.{Translates, Finds};
ghost use Rattle.monitor.specs.Share.{sharing as sharing_of, unsharing};
ghost use Rattle.monitor.specs.Take.{taking};
ghost use Rattle.monitor.specs.Destroy.{destroying};
ghost use Rattle.monitor.specs.Invalidated.{invalidating};

use monitor::{refusals, start};

// The first `reserved` of the frames from physical address `base` on are the monitor's.
#[unsafe(no_mangle)]
pub extern "C" fn pageledger_set_up(
    ram: &[u8],
    ledger: &mut [u32],
    base: u64,
    frames: u64,
    reserved: u64,
) -> u64
    ensures { SetUp base frames reserved ram.now ledger.old result ledger.new }
{
    refusals::number(start::set_up(ram, ledger, base, frames, reserved))
}

#[unsafe(no_mangle)]
pub extern "C" fn pageledger_create(ram: &mut [u8], ledger: &mut [u32], guest: u64) -> u64
    requires { Sound ram.old ledger.old }
    ensures { Answers (creating guest) ram.old ledger.old result ram.new ledger.new }
{
    refusals::number(monitor::create(ram, ledger, guest))
}

#[unsafe(no_mangle)]
pub extern "C" fn pageledger_give(ram: &mut [u8], ledger: &mut [u32], frame: u64, guest: u64) -> u64
    requires { Sound ram.old ledger.old }
    ensures { Answers (giving frame guest) ram.old ledger.old result ram.new ledger.new }
{
    refusals::number(monitor::give(ram, ledger, frame, guest))
}

// Where it answers 0, every other address translates as before, and the walk finds the frame at `ipa` with these rights.
#[unsafe(no_mangle)]
pub extern "C" fn pageledger_map(
    ram: &mut [u8],
    ledger: &mut [u32],
    frame: u64,
    guest: u64,
    ipa: u64,
    rights: u64,
) -> u64
    requires { Sound ram.old ledger.old }
    ensures answers { Answers (mapping_of frame guest ipa rights)
        ram.old ledger.old result ram.new ledger.new }
    ensures translates { result ≡ 0 → Translates (Map frame guest ipa rights (pick_of ledger.old))
        ram.old ledger.old ram.new ledger.new }
    ensures finds { result ≡ 0 → Finds guest ipa (some (frame, rights)) ram.new ledger.new }
{
    refusals::number(monitor::map(ram, ledger, frame, guest, ipa, rights))
}

// Where it answers 0, every other address translates as before, and the walk finds nothing at `ipa`.
#[unsafe(no_mangle)]
pub extern "C" fn pageledger_unmap(ram: &mut [u8], ledger: &mut [u32], ipa: u64, guest: u64) -> u64
    requires { Sound ram.old ledger.old }
    ensures answers { Answers (unmapping ipa guest) ram.old ledger.old result ram.new ledger.new }
    ensures translates { result ≡ 0 → Translates (Unmap ipa guest)
        ram.old ledger.old ram.new ledger.new }
    ensures finds { result ≡ 0 → Finds guest ipa none ram.new ledger.new }
{
    refusals::number(monitor::unmap(ram, ledger, ipa, guest))
}

#[unsafe(no_mangle)]
pub extern "C" fn pageledger_share(
    ram: &[u8],
    ledger: &mut [u32],
    owner: u64,
    frame: u64,
    with: u64,
    writing: u64,
) -> u64
    requires { Sound ram.now ledger.old }
    ensures { Answers (sharing_of owner frame with writing)
        ram.now ledger.old result ram.now ledger.new }
{
    refusals::number(monitor::share(ram, ledger, owner, frame, with, writing))
}

#[unsafe(no_mangle)]
pub extern "C" fn pageledger_unshare(
    ram: &[u8],
    ledger: &mut [u32],
    owner: u64,
    frame: u64,
    with: u64,
) -> u64
    requires { Sound ram.now ledger.old }
    ensures { Answers (unsharing owner frame with)
        ram.now ledger.old result ram.now ledger.new }
{
    refusals::number(monitor::unshare(ram, ledger, owner, frame, with))
}

#[unsafe(no_mangle)]
pub extern "C" fn pageledger_take(ram: &[u8], ledger: &mut [u32], frame: u64, owner: u64) -> u64
    requires { Sound ram.now ledger.old }
    ensures { Answers (taking frame owner) ram.now ledger.old result ram.now ledger.new }
{
    refusals::number(monitor::take(ram, ledger, frame, owner))
}

#[unsafe(no_mangle)]
pub extern "C" fn pageledger_destroy(ram: &[u8], ledger: &mut [u32], guest: u64) -> u64
    requires { Sound ram.now ledger.old }
    ensures { Answers (destroying guest) ram.now ledger.old result ram.now ledger.new }
{
    refusals::number(monitor::destroy(ram, ledger, guest))
}

#[unsafe(no_mangle)]
pub extern "C" fn pageledger_invalidated(ram: &[u8], ledger: &mut [u32], guest: u64) -> u64
    requires { Sound ram.now ledger.old }
    ensures { Answers (invalidating guest) ram.now ledger.old result ram.now ledger.new }
{
    refusals::number(monitor::invalidated(ram, ledger, guest))
}
