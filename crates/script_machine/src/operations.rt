// The monitor's operations, on the machine's parts of the lent slices.
ghost use Rattle.std.specs.Prelude.{◌≡◌};
ghost use Rattle.ledger.specs.Sound.{Sound};
ghost use Rattle.monitor.specs.Answers.{Answers};
ghost use Rattle.monitor.specs.Refusals.{answer_number};
ghost use Rattle.script_language.specs.declared.Command.TheVariants.{Operate};
ghost use Rattle.script_machine.specs.Operations.{operation};
ghost use Rattle.script_machine.specs.Machine.{MachineSound, Executed};

use super::{Machine, Outcome, Reply};
use monitor::refusals::{self, Refusal};
use script_language::Operation;

// Calls the monitor.
fn perform(o: Operation, ram: &mut [u8], ledger: &mut [u32]) -> Result<(), Refusal>
    requires { Sound ram.old ledger.old }
    ensures { Answers (operation o) ram.old ledger.old (answer_number result) ram.new ledger.new }
{
    match o {
        Operation::Create { guest } => monitor::create(ram, ledger, guest),
        Operation::Give { frame, guest } => monitor::give(ram, ledger, frame, guest),
        Operation::Map {
            frame,
            guest,
            address,
            rights,
        } => monitor::map(ram, ledger, frame, guest, address, rights),
        Operation::Unmap { address, guest } => monitor::unmap(ram, ledger, address, guest),
        Operation::Share {
            owner,
            frame,
            with,
            writing,
        } => monitor::share(ram, ledger, owner, frame, with, writing),
        Operation::Unshare { owner, frame, with } => monitor::unshare(
            ram, ledger, owner, frame, with,
        ),
        Operation::Take { frame, guest } => monitor::take(ram, ledger, frame, guest),
        Operation::Destroy { guest } => monitor::destroy(ram, ledger, guest),
        Operation::Invalidated { guest } => monitor::invalidated(ram, ledger, guest),
    }
}

impl Machine {
    // Stays: an `if` of its own and no call of if_ready. Of what a closure leaves in both slices a clause would say more than it saves.
    pub(crate) fn operate(self, o: Operation, ram: &mut [u8], ledger: &mut [u32]) -> Outcome
        requires { MachineSound self ram.old ledger.old }
        ensures { Executed (Operate o) self ram.old ledger.old ram.new ledger.new result }
    {
        if self.ready {
            let n = self.ram_bytes();
            let w = self.ledger_words();
            let answer = perform(o, &mut ram[..n], &mut ledger[..w]);
            return Outcome {
                machine: self,
                reply: Reply::Number(refusals::number(answer)),
            };
        }
        Outcome {
            machine: self,
            reply: Reply::SetupNeeded,
        }
    }
}
