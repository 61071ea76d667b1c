// The script language: a line is read, the machine answers its command, and the answer is printed.
// It reads and writes nothing outside of the slices that it is lent.
// Stays: RAM, ledger and output beside the machine: slices are parameters (docs/DECISIONS.md, 60).
#![tactic(auto)]

ghost use Rattle.std.specs.Prelude.{◌≤◌, length};
ghost use Rattle.script_language.specs.Commands.{read_line};
ghost use Rattle.script_machine.specs.Machine.{MachineSound};
ghost use Rattle.script.specs.LineAnswered.{Room, LineAnswered};

mod print;

use print::{put_mistake, put_reply};
use script_language::{Command, read_line};
use script_machine::{Machine, Outcome, execute};

// The machine after a line, and how many bytes were printed.
#[derive(Drop)]
pub struct Answered {
    pub machine: Machine,
    pub printed: usize,
}

// Carries out a command, and prints the reply.
fn answer_command(
    c: Command,
    m: Machine,
    ram: &mut [u8],
    ledger: &mut [u32],
    out: &mut [u8],
) -> Answered
    requires { (MachineSound m ram.old ledger.old) × (Room (length ram.old) (length out.old)) }
    ensures { LineAnswered (Ok (Some c)) m ram.old ledger.old
        ram.new ledger.new out.new result }
{
    let Outcome { machine, reply } = execute(c, m, ram, ledger);
    let printed = put_reply(out, reply, machine, ram, ledger);
    Answered { machine, printed }
}

// Answers one line, given without its line end.
pub fn answer_line(
    line: &[u8],
    m: Machine,
    ram: &mut [u8],
    ledger: &mut [u32],
    out: &mut [u8],
) -> Answered
    requires { (MachineSound m ram.old ledger.old) × (Room (length ram.old) (length out.old)) }
    ensures { LineAnswered (read_line line.now) m ram.old ledger.old
        ram.new ledger.new out.new result }
{
    match read_line(line) {
        Ok(None) => Answered {
            machine: m,
            printed: 0,
        },
        Ok(Some(c)) => answer_command(c, m, ram, ledger, out),
        Err(why) => Answered {
            machine: m,
            printed: put_mistake(out, why),
        },
    }
}
