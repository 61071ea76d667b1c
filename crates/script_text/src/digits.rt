// Texts and numbers, put one after the other into a slice that the caller lends.
// Stays: `out` and the place `at` go from call to call, and each answers the place after what it put: slices are parameters
// (docs/DECISIONS.md, 60). And no Display: these can't fail, and Wrote says how many bytes of the slice are touched.
ghost use Rattle.std.specs.Prelude.{◌≡◌, ◌+◌, ◌≤◌, ◌<◌, ◌++◌, length};
ghost use Rattle.script_text.specs.Digits.{digit_character, digits as digits_of, without_zeros, most_digits, word_digits, numeral_of, decimal_of, hex_of, sixteen_digits_of};
ghost use Rattle.script_text.specs.Wrote.{Wrote};
ghost use Rattle.script_text.specs.Bases.{base_number};

use crate::Base;

// The digits of 2^64 - 1 in base 10.
const MOST_DIGITS: usize = 20;

// The digits of a 64-bit word in base 16.
const WORD_DIGITS: usize = 16;

// The digits from here on are letters.
const LETTERS_FROM: u64 = 10;

// Puts text at `at`, and answers the place after it.
pub fn put(out: &mut [u8], at: usize, text: &[u8]) -> usize
    requires { at + length text.now ≤ length out.old }
    ensures { Wrote (length text.now) out.old at out.new result text.now }
{
    let after = at + text.len();
    out[at..after].copy_from_slice(text);
    after
}

// The character of a digit: 0 to 9, then a to f.
// Stays: char::from_digit answers an Option of a char, which would have to be made a byte again.
#[tactic(auto, unfolding(crate::specs::Digits::digit_character))]
fn digit_character(d: u64) -> u8
    requires { d < 16 }
    ensures { result ≡ digit_character d }
{
    if d < LETTERS_FROM {
        b'0' + d as u8
    } else {
        b'a' + (d - LETTERS_FROM) as u8
    }
}

// The last N digits of n in a base.
fn last_digits<const N: usize>(n: u64, base: Base) -> [u8; N]
    ensures { result ≡ digits_of (base_number base) N n }
{
    let base = u64::from(base);
    let mut digits = [0; N];
    let mut left = n;
    for i in (0..N).rev() {
        digits[i] = digit_character(left % base);
        left /= base;
    }
    digits
}

// n in a base, with no zeros in front.
fn put_number(out: &mut [u8], at: usize, n: u64, base: Base) -> usize
    requires { at + most_digits ≤ length out.old }
    ensures { Wrote most_digits out.old at out.new result (numeral_of (base_number base) n) }
{
    let digits: [u8; MOST_DIGITS] = last_digits(n, base);
    let zeros = digits
        .iter()
        .position(|&d| d != b'0')
        .unwrap_or(MOST_DIGITS - 1);
    put(out, at, &digits[zeros..])
}

#[tactic(auto, unfolding(crate::specs::Digits::decimal_of))]
pub fn put_decimal(out: &mut [u8], at: usize, n: u64) -> usize
    requires { at + most_digits ≤ length out.old }
    ensures { Wrote most_digits out.old at out.new result (decimal_of n) }
{
    put_number(out, at, n, Base::Decimal)
}

#[tactic(auto, using(crate::proofs::Laws::Printing::wrote_then), unfolding(crate::specs::Digits::hex_of))]
pub fn put_hex(out: &mut [u8], at: usize, n: u64) -> usize
    requires { at + (2 + most_digits) ≤ length out.old }
    ensures { Wrote (2 + most_digits) out.old at out.new result (hex_of n) }
{
    let next = put(out, at, b"0x");
    put_number(out, next, n, Base::Hexadecimal)
}

// Sixteen digits.
#[tactic(auto, using(crate::proofs::Laws::Printing::one_after_another), unfolding(crate::specs::Digits::sixteen_digits_of))]
pub fn put_word(out: &mut [u8], at: usize, n: u64) -> usize
    requires { at + (2 + word_digits) ≤ length out.old }
    ensures { Wrote (2 + word_digits) out.old at out.new result (sixteen_digits_of n) }
{
    let digits: [u8; WORD_DIGITS] = last_digits(n, Base::Hexadecimal);
    let next = put(out, at, b"0x");
    put(out, next, &digits)
}

// A label and a number.
#[tactic(auto, using(crate::proofs::Laws::Printing::wrote_then))]
pub fn put_field(out: &mut [u8], at: usize, label: &[u8], n: u64) -> usize
    requires { at + length label.now + most_digits ≤ length out.old }
    ensures { Wrote (length label.now + most_digits) out.old at out.new result
        (label.now ++ decimal_of n) }
{
    let next = put(out, at, label);
    put_decimal(out, next, n)
}
