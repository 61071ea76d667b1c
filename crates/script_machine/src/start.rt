// `setup`: RAM is cleared, and the monitor's set-up lays out the ledger.
ghost use Rattle.std.specs.Prelude.{◌≡◌, true, ◌*◌, ◌^◌, ◌<◌, ◌≤◌};
ghost use Rattle.memory.specs.Ram.{frame_bytes};
ghost use Rattle.ledger.specs.Layout.{words_for};
ghost use Rattle.script_language.specs.declared.Command.TheVariants.{SetUp};
ghost use Rattle.script_machine.specs.Machine.{MachineSound, allowed_of, Executed};

use super::{Machine, Outcome, Reply};
use monitor::refusals::{self, Refusal};

impl Machine {
    // Document 01, section 1, and no more frames and words of a ledger than the slices have.
    #[tactic(auto, using(std::proofs::lemmas::Bool::Decides::nat_tests), unfolding(crate::specs::Machine::allowed_of))]
    fn is_allowed(self, lent: usize, words: usize, monitor: u64) -> bool
        requires { frame_bytes * lent < 2 ^ 64 }
        ensures allowed { result ≡ allowed_of lent words self.frames self.base monitor }
        ensures within { result ≡ true → (self.frames ≤ lent) × (words_for self.frames ≤ words) }
    {
        memory::ram_fits(self.base, self.frames)
            && self.frames <= lent as u64
            && self.ledger_words() <= words
            && monitor < self.frames
    }

    pub(crate) fn set_up(
        self,
        ram: &mut [u8],
        ledger: &mut [u32],
        frames: u64,
        base: u64,
        monitor: u64,
    ) -> Outcome
        requires { MachineSound self ram.old ledger.old }
        ensures { Executed (SetUp frames base monitor) self ram.old ledger.old
            ram.new ledger.new result }
    {
        let machine = Machine {
            base,
            frames,
            ready: true,
        };
        let lent = ram.len() / memory::FRAME_BYTES as usize;
        if !machine.is_allowed(lent, ledger.len(), monitor) {
            return Outcome {
                machine: self,
                reply: Reply::Number(u64::from(Refusal::NoFrame)),
            };
        }
        let n = machine.ram_bytes();
        let w = machine.ledger_words();
        memory::clear(ram, 0, n);
        let answer = monitor::start::set_up(&ram[..n], &mut ledger[..w], base, frames, monitor);
        Outcome {
            machine,
            reply: Reply::Number(refusals::number(answer)),
        }
    }
}
