// A number: decimal digits, or hexadecimal ones after 0x; below 2^64.
ghost use Rattle.std.specs.Prelude.{◌≡◌, ◌+◌, ◌*◌};
ghost use Rattle.script_text.specs.Number.{value_or_too_large, add_character, read_numeral, number_of};
ghost use Rattle.script_text.specs.Bases.{base_number};

use crate::Base;

// Why a word is no number below 2^64.
#[derive(Clone, Copy, Debug, PartialEq, Eq)]
pub enum NumberError {
    TooLarge,
    NoNumber,
}

// The number v * base + d, where that fits.
#[tactic(auto, unfolding(crate::specs::Number::value_or_too_large))]
fn with_digit(v: u64, base: Base, d: u32) -> Result<u64, NumberError>
    ensures { result ≡ value_or_too_large (v * base_number base + d) }
{
    v.checked_mul(u64::from(base))
        .and_then(|more| more.checked_add(u64::from(d)))
        .ok_or(NumberError::TooLarge)
}

// What was read, and one character more.
#[tactic(auto, using(crate::proofs::Laws::Reading::digit_read), unfolding(crate::specs::Number::add_character))]
fn add_character(read: Result<u64, NumberError>, base: Base, c: u8) -> Result<u64, NumberError>
    ensures { result ≡ add_character (base_number base) c read }
{
    let d = char::from(c)
        .to_digit(base as u32)
        .ok_or(NumberError::NoNumber)?;
    with_digit(read?, base, d)
}

// The number that s spells in a base, digit by digit.
#[tactic(auto, using(crate::proofs::Laws::Reading::readings), unfolding(crate::specs::Number::read_numeral))]
fn read_numeral(s: &[u8], base: Base) -> Result<u64, NumberError>
    ensures { result ≡ read_numeral (base_number base) s.now }
{
    if s.is_empty() {
        return Err(NumberError::NoNumber);
    }
    let mut read = Ok(0);
    for &c in s {
        read = add_character(read, base, c);
    }
    read
}

// A number in a script: hexadecimal after 0x, otherwise decimal.
#[tactic(auto, unfolding(crate::specs::Number::number_of, crate::specs::Number::starts_with_0x))]
pub fn number(s: &[u8]) -> Result<u64, NumberError>
    ensures { result ≡ number_of s.now }
{
    match s {
        [b'0', b'x', digits @ ..] => read_numeral(digits, Base::Hexadecimal),
        _ => read_numeral(s, Base::Decimal),
    }
}
