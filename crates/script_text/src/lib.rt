// Lines of ASCII text: words and numbers are read, texts and numbers are put into a slice that the caller lends.
// It knows no command and calls no C function.
#![tactic(auto)]

ghost use Rattle.std.specs.Prelude.{◌≡◌, ◌≤◌};
ghost use Rattle.script_text.specs.Bases.{base_number};

pub mod digits;
pub mod numbers;
pub mod words;

// The bases of the numbers that are read and put.
#[derive(Clone, Copy)]
enum Base {
    Decimal = 10,
    Hexadecimal = 16,
}

impl From<Base> for u64 {
    ghost from_gives = { λ base number. (number ≡ base_number base) × (10 ≤ number) × (number ≤ 16) };

    fn from(base: Base) -> u64 {
        base as u64
    }
}
