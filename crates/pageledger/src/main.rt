// Runs a script: standard input to standard output.
#![tactic(auto)]

ghost use Rattle.std.specs.Prelude.{◌≡◌, ℕ, List, [], ◌∷◌, ◌++◌, take};
ghost use Rattle.script_language.specs.Commands.{read_line};
ghost use Rattle.script.specs.LineAnswered.{LineEffect};
ghost use Rattle.pageledger.specs.Progress.{ProgressSound};

mod buffer;

use buffer::Buffer;
use ledger::columns::{HEADER_WORDS, ROW_WORDS};
use script_machine::Machine;
use std::io::{Read, Write};

// The frames that a script can have.
const FRAMES: usize = 1024;

const RAM_BYTES: usize = FRAMES * memory::FRAME_BYTES as usize;

const LEDGER_WORDS: usize = HEADER_WORDS as usize + ROW_WORDS as usize * FRAMES;

// The bytes that any line prints (room_for).
const RAM_PER_ROOM: usize = 16;

const REPLY_BYTES: usize = 256;

const ROOM_BYTES: usize = RAM_BYTES / RAM_PER_ROOM + REPLY_BYTES;

// The output has room for that, and for nearly as much that waits to be written.
const OUT_BYTES: usize = 2 * (RAM_BYTES / RAM_PER_ROOM);

const LINE_END: u8 = b'\n';

// A line is gathered up to this length; the input is read in parts of up to that one.
const LINE_BYTES: usize = 4096;

const CHUNK_BYTES: usize = 65536;

// The machine, the line that is gathered, and the output that is not written yet.
// Stays: RAM and ledger are lent beside it. With them as fields the stack had no room to build it (tried): 4 MiB are copied into place.
#[derive(Drop)]
struct Progress {
    machine: Machine,
    line: Buffer<LINE_BYTES>,
    output: Buffer<OUT_BYTES>,
}

impl Progress {
    // Answers the line that was gathered. The output is written where there is no room for another answer.
    fn end_line<W: Write>(
        &mut self,
        stdout: &mut W,
        ram: &mut [u8; RAM_BYTES],
        ledger: &mut [u32; LEDGER_WORDS],
    )
        requires { ProgressSound self.old ram.old ledger.old }
        ensures sound { ProgressSound self.new ram.new ledger.new }
        ensures begun { self.new.line ≡ [] }
        ensures answered { (text : List ℕ) × LineEffect (read_line self.old.line) self.old.machine ram.old ledger.old
            ram.new ledger.new self.new.machine text }
    {
        let m = self.machine;
        let line = self.line.bytes();
        let out = &mut self.output;
        let at = out.length;
        let done = script::answer_line(line, m, ram, ledger, &mut out.bytes[at..]);
        out.length = at + done.printed;
        self.machine = done.machine;
        self.line.clear();
        if OUT_BYTES - ROOM_BYTES < self.output.length {
            self.output.write_to(stdout);
        }
    }

    // The next byte of the input: a line's end, or one more of the line. A line of 4,096 bytes or more stays one of 4,096.
    fn take_byte<W: Write>(
        &mut self,
        stdout: &mut W,
        b: u8,
        ram: &mut [u8; RAM_BYTES],
        ledger: &mut [u32; LEDGER_WORDS],
    )
        requires { ProgressSound self.old ram.old ledger.old }
        ensures sound { ProgressSound self.new ram.new ledger.new }
        ensures gathered { ¬ (b ≡ LINE_END) → (self.new.machine ≡ self.old.machine)
            × (self.new.line ≡ take LINE_BYTES (self.old.line ++ b ∷ [])) × (self.new.output ≡ self.old.output) }
    {
        if b == LINE_END {
            self.end_line(stdout, ram, ledger);
        } else {
            self.line.push(b);
        }
    }

    // The bytes that one read of the input gave.
    fn take_bytes<W: Write>(
        &mut self,
        stdout: &mut W,
        chunk: &[u8],
        ram: &mut [u8; RAM_BYTES],
        ledger: &mut [u32; LEDGER_WORDS],
    )
        requires { ProgressSound self.old ram.old ledger.old }
        ensures { ProgressSound self.new ram.new ledger.new }
    {
        for &b in chunk {
            self.take_byte(stdout, b, ram, ledger);
        }
    }

    // Reads the input to its end, or until a read fails. A proved loop has to end, and nothing says that the input does: the turns are
    // counted, up to a number that no run comes to.
    fn read_input<R: Read, W: Write>(
        &mut self,
        stdin: &mut R,
        stdout: &mut W,
        ram: &mut [u8; RAM_BYTES],
        ledger: &mut [u32; LEDGER_WORDS],
    )
        requires { ProgressSound self.old ram.old ledger.old }
        ensures { ProgressSound self.new ram.new ledger.new }
    {
        let mut chunk = [0u8; CHUNK_BYTES];
        for _ in 0..u64::MAX {
            let got = stdin.read(&mut chunk).unwrap_or(0);
            if got == 0 {
                return;
            }
            self.take_bytes(stdout, &chunk[..got], ram, ledger);
        }
    }
}

// Runs the script on lent memory. The last line may have no line end; where there is none, nothing is printed for it.
fn run<R: Read, W: Write>(
    stdin: &mut R,
    stdout: &mut W,
    ram: &mut [u8; RAM_BYTES],
    ledger: &mut [u32; LEDGER_WORDS],
) {
    let mut progress = Progress {
        machine: script_machine::no_machine(),
        line: Buffer::new(),
        output: Buffer::new(),
    };
    progress.read_input(stdin, stdout, ram, ledger);
    progress.end_line(stdout, ram, ledger);
    progress.output.write_to(stdout);
}

fn main(rt: HostRuntime) {
    let mut ram = [0u8; RAM_BYTES];
    let mut ledger = [0u32; LEDGER_WORDS];
    run(&mut rt.stdin(), &mut rt.stdout(), &mut ram, &mut ledger);
}
