// The number that a digit string spells, and the digits of a number at a width.
ghost use Rattle.std.specs.Prelude.{◌≡◌, ◌≤◌, length, replicate};
ghost use Rattle.digits.specs.Digits.{digit_of};
ghost use Rattle.digits.specs.Numbers.{most_digits, number, number_of, value, star, numeral};

use super::leading;

// Of more digits the number might not fit.
const MOST_DIGITS: usize = 19;

// Stands where a number has more digits than its width: printable and no digit.
const STAR: u8 = b'*';

// What a byte counts, as `digit_of` gives it, for one digit at a time: the difference wraps below
// '0', so that one test does.
fn worth(b: u8) -> u64
    ensures { (result ≡ digit_of b) × (result ≤ 9) }
{
    let d = (b as u64).wrapping_sub(b'0' as u64);
    if d < 10 { d } else { 0 }
}

// The number that the digits give, from the left.
fn spelled(s: &[u8]) -> u64
    requires { length s.now ≤ most_digits }
    ensures { result ≡ number s.now }
{
    let mut n = 0;
    for b in s {
        n = n * 10 + worth(*b);
    }
    n
}

// Of digits that have been looked at already.
pub fn value(s: &[u8]) -> u64
    ensures { result ≡ value s.now }
{
    if MOST_DIGITS < s.len() { 0 } else { spelled(s) }
}

// The number that a string of digits gives; none where it has another byte, or too many digits.
pub fn number_of(s: &[u8]) -> Option<u64>
    ensures { result ≡ number_of s.now }
{
    if MOST_DIGITS < s.len() || leading(s) < s.len() {
        return None;
    }
    Some(spelled(s))
}

// n over the whole part, from the right: its digits behind zeros, or stars where some are left. By
// index: of a loop over `iter_mut().rev()` nothing says what the part holds behind it.
pub fn write_number(n: u64, part: &mut [u8])
    ensures { part.new ≡ numeral (length part.old) n }
{
    let mut left = n;
    for i in (0..part.len()).rev() {
        part[i] = b'0' + (left % 10) as u8;
        left /= 10;
    }
    if left != 0 {
        part.fill(STAR);
    }
}
