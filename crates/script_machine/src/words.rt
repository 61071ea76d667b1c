// `word` and `peek`: eight bytes at a physical address. After a word in a table the monitor can count on RAM and ledger no longer.
ghost use Rattle.std.specs.Prelude.{◌≡◌, true, not, cond, ◌&&◌, ◌||◌, ◌+◌, ◌-◌, ◌*◌, ◌/◌, ◌^◌, ◌<◌, ◌≤◌, IfSome};
ghost use Rattle.memory.specs.Ram.{frame_bytes};
ghost use Rattle.model.specs.State.{tabled};
ghost use Rattle.ledger.specs.Layout.{size_of, kind_of};
ghost use Rattle.ledger.specs.LedgerSound.{LedgerSound};
ghost use Rattle.script_language.specs.declared.Command.TheVariants.{StoreWord};
ghost use Rattle.script_machine.specs.Machine.{word_bytes, RamLent, MachineSound, word_in_ram, word_in_table, peek_reply, Executed};

use super::{Machine, Outcome, Reply};
use ledger::frame;
use ledger::kinds::Kind;

const WORD_BYTES: u64 = 8;

// Does the ledger have frame f for a table, in use or draining?
fn holds_table(ledger: &[u32], f: u64) -> bool
    requires ledger_sound { LedgerSound ledger.now }
    requires f_bound { f < size_of ledger.now }
    ensures { result ≡ tabled (kind_of ledger.now f) }
{
    matches!(frame::kind(ledger, f), Kind::Table | Kind::DrainingTable)
}

// A word may lie in two frames.
fn in_table(ledger: &[u32], at: u64) -> bool
    requires ledger_sound { LedgerSound ledger.now }
    requires word_bytes_bound { (at + word_bytes ≤ size_of ledger.now * frame_bytes) × (at + word_bytes < 2 ^ 64) }
    ensures { result ≡ (tabled (kind_of ledger.now (at / frame_bytes))
        || tabled (kind_of ledger.now ((at + 7) / frame_bytes))) }
{
    holds_table(ledger, at / memory::FRAME_BYTES)
        || holds_table(ledger, (at + (WORD_BYTES - 1)) / memory::FRAME_BYTES)
}

impl Machine {
    // Where in RAM the eight bytes at physical address a are, if all are there.
    #[tactic(auto, using(std::proofs::lemmas::Bool::Decides::nat_tests), unfolding(crate::specs::Machine::word_in_ram))]
    fn place(self, a: u64) -> Option<u64>
        requires { frame_bytes * self.frames < 2 ^ 64 }
        ensures place { result ≡ cond (word_in_ram self a) (Some (a - self.base)) None }
        ensures within { IfSome result (λ at. at + word_bytes ≤ frame_bytes * self.frames) }
    {
        let at = a.checked_sub(self.base)?;
        let end = at.checked_add(WORD_BYTES)?;
        if end <= memory::FRAME_BYTES * self.frames {
            Some(at)
        } else {
            None
        }
    }

    // Is the machine ready when a word has been written at that place?
    #[tactic(auto, using(crate::proofs::Laws::Parts::size_is), unfolding(crate::specs::Machine::word_in_table))]
    fn stays_ready(self, ram: &[u8], ledger: &[u32], a: u64, at: u64) -> bool
        requires machine_sound { MachineSound self ram.now ledger.now }
        requires at_value { at ≡ a - self.base }
        requires within { at + word_bytes ≤ frame_bytes * self.frames }
        ensures { result ≡ (self.ready && not (word_in_table self ledger.now a)) }
    {
        self.ready && !in_table(self.ledger(ledger), at)
    }

    pub(crate) fn store_word(self, ram: &mut [u8], ledger: &[u32], a: u64, v: u64) -> Outcome
        requires { MachineSound self ram.old ledger.now }
        ensures { Executed (StoreWord a v) self ram.old ledger.now ram.new ledger.now result }
    {
        let Some(at) = self.place(a) else {
            return Outcome {
                machine: self,
                reply: Reply::OutsideRam,
            };
        };
        let ready = self.stays_ready(ram, ledger, a, at);
        memory::store_word(ram, at as usize, v);
        Outcome {
            machine: Machine { ready, ..self },
            reply: Reply::Done,
        }
    }

    pub(crate) fn peek_word(self, ram: &[u8], a: u64) -> Reply
        requires { RamLent self ram.now }
        ensures { result ≡ peek_reply self ram.now a }
    {
        match self.place(a) {
            Some(at) => Reply::Contents(memory::word(ram, at as usize)),
            None => Reply::OutsideRam,
        }
    }
}
