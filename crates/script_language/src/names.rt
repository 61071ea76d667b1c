// A line's first word: which command it asks for, what arguments follow, and the command that they make.
ghost use Rattle.std.specs.Prelude.{◌≡◌, ◌≤◌, length};
ghost use Rattle.script_language.specs.Names.{first_word, forms_of, command_numbers, access_and_level, most_arguments, argument_at, operation_with, command_with};

use crate::{Command, MOST_ARGUMENTS, Operation, Question};
use CommandName::{
    OneFrame, OneGuest, Operating, Peek, Setup, Stage2, Translation, Walk, WholeLedger, Word,
};
use Form::{Access, Level, Number};
use OperationName::{
    Creating, Destroying, Giving, Invalidating, Mapping, Sharing, Taking, Unmapping, Unsharing,
};
use script_text::words::same_text;

// A command by its first word.
#[derive(Clone, Copy)]
pub enum CommandName {
    Setup,
    Word,
    Peek,
    Stage2,
    Walk,
    Translation,
    OneFrame,
    OneGuest,
    WholeLedger,
    Operating(OperationName),
}

// The operations among them.
#[derive(Clone, Copy)]
pub enum OperationName {
    Creating,
    Giving,
    Mapping,
    Unmapping,
    Sharing,
    Unsharing,
    Taking,
    Destroying,
    Invalidating,
}

// What an argument is: a number, a kind of access, a level.
#[derive(Clone, Copy, Debug, PartialEq, Eq)]
pub enum Form {
    Number,
    Access,
    Level,
}

// Each word, and what it names (docs/SCRIPT.md).
const COMMANDS: [(&[u8], CommandName); 18] = [
    (b"setup", Setup),
    (b"word", Word),
    (b"peek", Peek),
    (b"stage2", Stage2),
    (b"walk", Walk),
    (b"translate", Translation),
    (b"frame", OneFrame),
    (b"guest", OneGuest),
    (b"ledger", WholeLedger),
    (b"create", Operating(Creating)),
    (b"give", Operating(Giving)),
    (b"map", Operating(Mapping)),
    (b"unmap", Operating(Unmapping)),
    (b"share", Operating(Sharing)),
    (b"unshare", Operating(Unsharing)),
    (b"take", Operating(Taking)),
    (b"destroy", Operating(Destroying)),
    (b"invalidated", Operating(Invalidating)),
];

// The command or operation that a line's first word names.
pub fn first_word(w: &[u8]) -> Option<CommandName>
    ensures { result ≡ first_word w.now }
{
    let (_, name) = COMMANDS.iter().find(|(word, _)| same_text(w, *word))?;
    Some(*name)
}

// What follows a command's word.
#[tactic(auto, unfolding(crate::specs::Names::forms_of, crate::specs::Names::command_numbers, crate::specs::Names::operation_numbers, crate::specs::Names::access_and_level))]
pub fn forms(name: CommandName) -> &'static [Form]
    ensures forms { result.now ≡ forms_of (command_numbers name) (access_and_level name) }
    ensures few { length result.now ≤ most_arguments }
{
    match name {
        Setup => &[Number; 3],
        Word => &[Number; 2],
        Peek => &[Number; 1],
        Stage2 | Translation => &[Number, Number, Access],
        Walk => &[Number, Number, Number, Access, Level],
        OneFrame | OneGuest => &[Number; 1],
        WholeLedger => &[],
        Operating(Creating | Destroying | Invalidating) => &[Number; 1],
        Operating(Giving | Unmapping | Taking) => &[Number; 2],
        Operating(Unsharing) => &[Number; 3],
        Operating(Mapping) => &[Number; 4],
        Operating(Sharing) => &[Number; 4],
    }
}

// An operation with its arguments, in the script's order.
#[tactic(auto, unfolding(crate::specs::Names::operation_with))]
fn operation_with(d: OperationName, a: [u64; MOST_ARGUMENTS]) -> Operation
    ensures { result ≡ operation_with d (argument_at a) }
{
    match d {
        Creating => Operation::Create { guest: a[0] },
        Giving => Operation::Give {
            frame: a[0],
            guest: a[1],
        },
        Mapping => Operation::Map {
            frame: a[0],
            guest: a[1],
            address: a[2],
            rights: a[3],
        },
        Unmapping => Operation::Unmap {
            address: a[0],
            guest: a[1],
        },
        Sharing => Operation::Share {
            owner: a[0],
            frame: a[1],
            with: a[2],
            writing: a[3],
        },
        Unsharing => Operation::Unshare {
            owner: a[0],
            frame: a[1],
            with: a[2],
        },
        Taking => Operation::Take {
            frame: a[0],
            guest: a[1],
        },
        Destroying => Operation::Destroy { guest: a[0] },
        Invalidating => Operation::Invalidated { guest: a[0] },
    }
}

// A command with its arguments, in the script's order.
#[tactic(auto, unfolding(crate::specs::Names::command_with))]
pub fn command_with(v: CommandName, a: [u64; MOST_ARGUMENTS]) -> Command
    ensures { result ≡ command_with v (argument_at a) }
{
    match v {
        Setup => Command::SetUp {
            frames: a[0],
            base: a[1],
            monitor: a[2],
        },
        Word => Command::StoreWord {
            address: a[0],
            value: a[1],
        },
        Peek => Command::Ask(Question::PeekWord { address: a[0] }),
        Stage2 => Command::Ask(Question::WalkStage2 {
            root: a[0],
            ipa: a[1],
            access: a[2],
        }),
        Walk => Command::Ask(Question::WalkBoth {
            root1: a[0],
            root2: a[1],
            va: a[2],
            access: a[3],
            el: a[4],
        }),
        Translation => Command::Ask(Question::Translate {
            guest: a[0],
            ipa: a[1],
            access: a[2],
        }),
        OneFrame => Command::Ask(Question::Frame { frame: a[0] }),
        OneGuest => Command::Ask(Question::Guest { guest: a[0] }),
        WholeLedger => Command::Ask(Question::Ledger),
        Operating(d) => Command::Operate(operation_with(d, a)),
    }
}
