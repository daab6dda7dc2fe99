// Digit strings, and strings of digits and capital letters: the numbers they spell, and their check digits.
#![tactic(auto)]

mod sealing;
mod spelling;

ghost use Rattle.std.specs.Prelude.{◌≡◌, ◌≤◌};
ghost use Rattle.digits.specs.Digits.{digit_of, character_of, leading, all_digits, all_characters};
ghost use Rattle.digits.specs.inner.Steps.{most_value};

pub use sealing::{Modulus, check_digit, ends_right_twice, is_sealed};
pub use spelling::{number_of, value, write_number};

// What a byte counts: one that is no digit counts 0.
fn digit_of(b: u8) -> u64
    ensures { (result ≡ digit_of b) × (result ≤ 9) }
{
    if b.is_ascii_digit() {
        b as u64 - b'0' as u64
    } else {
        0
    }
}

// What a digit or a capital letter counts: another byte counts 0.
fn character_of(b: u8) -> u64
    ensures { (result ≡ character_of b) × (result ≤ most_value) }
{
    if b.is_ascii_digit() | b.is_ascii_uppercase() {
        b as u64 - b'0' as u64
    } else {
        0
    }
}

// How many digits s begins with.
pub fn leading(s: &[u8]) -> usize
    ensures { result ≡ leading s.now }
{
    s.iter().take_while(|b| b.is_ascii_digit()).count()
}

// Yes or no, without an early exit: the compiler looks at many bytes at once.
pub fn all_digits(s: &[u8]) -> bool
    ensures { result ≡ all_digits s.now }
{
    s.iter().fold(true, |all, b| all & b.is_ascii_digit())
}

// The same of digits and capital letters.
pub fn all_characters(s: &[u8]) -> bool
    ensures { result ≡ all_characters s.now }
{
    s.iter().fold(
        true,
        |all, b| all & (b.is_ascii_digit() | b.is_ascii_uppercase()),
    )
}
