// The words after the first: numbers, a kind of access, a level.
ghost use Rattle.std.specs.Prelude.{◌≡◌, map};
ghost use Rattle.script_language.specs.Commands.{named_argument, read_argument, values_for, read_from};

use crate::names::{self, CommandName, Form, command_with};
use crate::{Command, MOST_ARGUMENTS, Reason};
use script_text::numbers::number;
use script_text::words::{same_text, word_end, word_start};

// A name's number is its place.
// Stays: a question holds the kind of access and the level as numbers, since `walk::stage2` and `walk::both_stages` take them so,
// and any number.
const ACCESS_NAMES: [&[u8]; 3] = [b"r", b"w", b"x"];

const LEVEL_NAMES: [&[u8]; 2] = [b"el0", b"el1"];

// A word that is one of the names: its place there.
fn named_argument(w: &[u8], names: &[&[u8]], why: Reason) -> Result<u64, Reason>
    ensures { result ≡ named_argument w.now (map (λ name. name.now) names.now) why }
{
    let place = names
        .iter()
        .position(|&name| same_text(w, name))
        .ok_or(why)?;
    Ok(place as u64)
}

#[tactic(auto, unfolding(crate::specs::Commands::read_argument))]
fn read_argument(form: Form, w: &[u8]) -> Result<u64, Reason>
    ensures { result ≡ read_argument form w.now }
{
    match form {
        Form::Number => Ok(number(w)?),
        Form::Access => named_argument(w, &ACCESS_NAMES, Reason::AccessExpected),
        Form::Level => named_argument(w, &LEVEL_NAMES, Reason::LevelExpected),
    }
}

// The words after the first, read as the command wants them.
#[tactic(auto, using(crate::proofs::Laws::Parsing::readings))]
pub fn read_arguments(name: CommandName, s: &[u8]) -> Result<Command, Reason>
    ensures { result ≡ read_from name (values_for name s.now) }
{
    let forms = names::forms(name);
    let mut arguments = [0; MOST_ARGUMENTS];
    let mut at = 0;
    for (i, &form) in forms.iter().enumerate() {
        let from = word_start(s, at);
        if from == s.len() {
            return Err(Reason::TooFewWords);
        }
        at = word_end(s, from);
        arguments[i] = read_argument(form, &s[from..at])?;
    }
    if word_start(s, at) < s.len() {
        return Err(Reason::TooManyWords);
    }
    Ok(command_with(name, arguments))
}
