// The script language's lines: a line is taken apart into a command, or into why it can't be read.
// It knows the commands' words and arguments, and not what they do.
#![tactic(auto)]

ghost use Rattle.std.specs.Prelude.{◌≡◌};
ghost use Rattle.script_language.specs.Commands.{reason_of, read_command, read_words, read_line};
ghost use Rattle.script_language.specs.Names.{first_word as first_word_of};
ghost use Rattle.script_text.specs.Words.{after_blanks};

mod arguments;
mod names;

use arguments::read_arguments;
use names::first_word;
use script_text::numbers::NumberError;
use script_text::words::{is_text, text_end, word_end, word_start};

// A line of so many bytes, its line end not counted, is too long.
const LINE_LIMIT: usize = 4096;

// `walk` has five, and no command has more.
const MOST_ARGUMENTS: usize = 5;

// An operation of the monitor (document 03, section 3), as a script names it.
// Stays: rights and writing are numbers, which a script may write as it likes: the monitor refuses those that are none.
#[derive(Drop)]
pub enum Operation {
    Create {
        guest: u64,
    },
    Give {
        frame: u64,
        guest: u64,
    },
    Map {
        frame: u64,
        guest: u64,
        address: u64,
        rights: u64,
    },
    Unmap {
        address: u64,
        guest: u64,
    },
    Share {
        owner: u64,
        frame: u64,
        with: u64,
        writing: u64,
    },
    Unshare {
        owner: u64,
        frame: u64,
        with: u64,
    },
    Take {
        frame: u64,
        guest: u64,
    },
    Destroy {
        guest: u64,
    },
    Invalidated {
        guest: u64,
    },
}

// What a command asks that changes nothing.
// Stays: access and el are numbers; arguments.rt says why.
#[derive(Drop)]
pub enum Question {
    PeekWord {
        address: u64,
    },
    WalkStage2 {
        root: u64,
        ipa: u64,
        access: u64,
    },
    WalkBoth {
        root1: u64,
        root2: u64,
        va: u64,
        access: u64,
        el: u64,
    },
    Translate {
        guest: u64,
        ipa: u64,
        access: u64,
    },
    Frame {
        frame: u64,
    },
    Guest {
        guest: u64,
    },
    Ledger,
}

// What a line asks for.
#[derive(Drop)]
pub enum Command {
    SetUp {
        frames: u64,
        base: u64,
        monitor: u64,
    },
    StoreWord {
        address: u64,
        value: u64,
    },
    Operate(Operation),
    Ask(Question),
}

// Why a line can't be read.
#[derive(Clone, Copy, Debug, PartialEq, Eq)]
pub enum Reason {
    UnknownCommand,
    TooFewWords,
    TooManyWords,
    NumberExpected,
    NumberTooLarge,
    AccessExpected,
    LevelExpected,
    NotText,
    LineTooLong,
}

impl From<NumberError> for Reason {
    ghost from_gives = { λ e r. r ≡ reason_of e };

    fn from(e: NumberError) -> Reason {
        match e {
            NumberError::TooLarge => Reason::NumberTooLarge,
            NumberError::NoNumber => Reason::NumberExpected,
        }
    }
}

// The command of a first word, with the words after it.
#[tactic(auto, unfolding(crate::specs::Commands::read_command))]
fn read_command(word: &[u8], s: &[u8]) -> Result<Command, Reason>
    ensures { result ≡ read_command (first_word_of word.now) s.now }
{
    let name = first_word(word).ok_or(Reason::UnknownCommand)?;
    read_arguments(name, s)
}

// The words of a line's text.
#[tactic(auto, using(crate::proofs::Laws::Parsing::no_word))]
fn read_words(s: &[u8]) -> Result<Option<Command>, Reason>
    ensures { result ≡ read_words (after_blanks s.now) }
{
    let from = word_start(s, 0);
    if from == s.len() {
        return Ok(None);
    }
    let to = word_end(s, from);
    let command = read_command(&s[from..to], &s[to..])?;
    Ok(Some(command))
}

// Reads a line, given without its line end: a command, or none where it has no words.
#[tactic(auto, unfolding(crate::specs::Commands::read_line))]
pub fn read_line(line: &[u8]) -> Result<Option<Command>, Reason>
    ensures { result ≡ read_line line.now }
{
    if LINE_LIMIT <= line.len() {
        return Err(Reason::LineTooLong);
    }
    let text = &line[..text_end(line)];
    if is_text(text) {
        read_words(text)
    } else {
        Err(Reason::NotText)
    }
}
