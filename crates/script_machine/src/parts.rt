// The machine's parts of the slices that are lent: its RAM, and its ledger.
ghost use Rattle.std.specs.Prelude.{◌≡◌, ◌*◌, ◌^◌, ◌<◌, ◌≤◌, length};
ghost use Rattle.memory.specs.Ram.{frame_bytes};
ghost use Rattle.ledger.specs.Layout.{words_for};
ghost use Rattle.script_machine.specs.Machine.{RamLent, ram_of, ledger_of};

use super::Machine;
use ledger::columns::{HEADER_WORDS, ROW_WORDS};

impl Machine {
    // How many bytes its RAM has.
    pub(crate) fn ram_bytes(self) -> usize
        requires { frame_bytes * self.frames < 2 ^ 64 }
        ensures { result ≡ frame_bytes * self.frames }
    {
        (memory::FRAME_BYTES * self.frames) as usize
    }

    // How many words its ledger has.
    // Stays: beside ledger::words_for, which asks for few enough frames: `ledger` asks only that the words are there.
    pub(crate) fn ledger_words(self) -> usize
        requires { words_for self.frames < 2 ^ 64 }
        ensures { result ≡ words_for self.frames }
    {
        (HEADER_WORDS + ROW_WORDS * self.frames) as usize
    }

    // Its part of the RAM that is lent.
    pub fn ram(self, lent: &[u8]) -> &[u8]
        requires { RamLent self lent.now }
        ensures { result.now ≡ ram_of self lent.now }
    {
        &lent[..self.ram_bytes()]
    }

    // Its part of the ledger that is lent.
    pub fn ledger(self, lent: &[u32]) -> &[u32]
        requires { words_for self.frames ≤ length lent.now }
        ensures { result.now ≡ ledger_of self lent.now }
    {
        &lent[..self.ledger_words()]
    }
}
