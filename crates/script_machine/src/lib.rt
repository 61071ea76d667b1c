// The machine of a script: a command is answered on RAM and a ledger that the caller lends.
#![tactic(auto)]

ghost use Rattle.std.specs.Prelude.{◌≡◌, false};
ghost use Rattle.script_machine.specs.Machine.{MachineSound, Executed};

use monitor_query::GuestKind;
use script_language::Command;
use walk::Answer;

mod operations;
mod parts;
mod questions;
mod start;
mod words;

// The machine that `setup` made: RAM is the first `frames` frames of the lent slice, from physical address `base`. No frames: none yet.
// Ready: the ledger is what `setup` and the operations have made, and no `word` has hit a table since.
// Stays: `frames: 0` and no Option<Machine>. RAM with no frames has no word and no walk, so each command answers it by its own rule.
// Stays: MachineSound in clauses, and RAM and ledger as parameters: slices are parameters (docs/DECISIONS.md, 60).
#[derive(Clone, Copy, Default)]
pub struct Machine {
    pub base: u64,
    pub frames: u64,
    pub ready: bool,
}

// What a command answers, before it is text.
#[derive(Drop)]
pub enum Reply {
    Done,
    OutsideRam,
    Number(u64),
    Contents(u64),
    Walked(Answer),
    Frame(u64),
    Guest(GuestKind),
    Ledger,
    SetupNeeded,
}

// The machine after a command, and the reply.
#[derive(Drop)]
pub struct Outcome {
    pub machine: Machine,
    pub reply: Reply,
}

// Before the first `setup`.
pub fn no_machine() -> Machine
    ensures { (result.frames ≡ 0) × (result.base ≡ 0) × (result.ready ≡ false) }
{
    Machine::default()
}

// Carries out a command.
pub fn execute(c: Command, m: Machine, ram: &mut [u8], ledger: &mut [u32]) -> Outcome
    requires { MachineSound m ram.old ledger.old }
    ensures { Executed c m ram.old ledger.old ram.new ledger.new result }
{
    match c {
        Command::SetUp {
            frames,
            base,
            monitor,
        } => m.set_up(ram, ledger, frames, base, monitor),
        Command::StoreWord { address, value } => m.store_word(ram, ledger, address, value),
        Command::Operate(o) => m.operate(o, ram, ledger),
        Command::Ask(q) => Outcome {
            machine: m,
            reply: m.reply_to(q, ram, ledger),
        },
    }
}
