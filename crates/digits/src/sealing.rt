// Check digits, from the right.
ghost use Rattle.std.specs.Prelude.{◌≡◌, ◌+◌, ◌-◌, ◌%◌, ◌^◌, ◌<◌, ◌≤◌, ◌++◌, cond, nat_lt, length};
ghost use Rattle.digits.specs.Digits.{digit_byte};
ghost use Rattle.digits.specs.inner.Steps.{few, most_value, weighed_before};
ghost use Rattle.digits.specs.Checks.{base, value_of, counts, lift, check_digit, sealed, ends_right, ends_right_twice};

use super::{character_of, digit_of};

// Ten: weights 2, 1, 2 .. and the digits of each product added. Eleven: weights 2 to 9, repeating.
// PlainEleven: the same, over digits and capital letters, with check digit 0 for remainder 0 or 1;
// for a CNPJ, and for a collection code by modulus 11.
// LongEleven: weights 2 to 11, repeating, over digits, with check digit 0 for remainder 0 or 1.
#[derive(Clone, Copy)]
pub enum Modulus {
    Ten,
    Eleven,
    PlainEleven,
    LongEleven,
}

// So many bytes at most are a short string: what they count, at most 462 each, fits 16 bits.
const FEW: usize = 140;

// What a remainder above 1 lacks of 11, as a byte, and `low` for 0 and 1.
fn eleven_less(r: u64, low: u8) -> u8
    requires { r < 11 }
    ensures { result ≡ cond (nat_lt r 2) low (digit_byte (11 - r)) }
{
    if r < 2 { low } else { b'0' + (11 - r) as u8 }
}

impl Modulus {
    fn base(self) -> u64
        ensures { result ≡ base self }
    {
        match self {
            Modulus::Ten => 10,
            Modulus::Eleven | Modulus::PlainEleven | Modulus::LongEleven => 11,
        }
    }

    // What a byte counts by itself.
    fn value_of(self, b: u8) -> u64
        ensures { (result ≡ value_of self b) × (result ≤ most_value) }
    {
        match self {
            Modulus::Ten | Modulus::Eleven | Modulus::LongEleven => digit_of(b),
            Modulus::PlainEleven => character_of(b),
        }
    }

    // What a value d with k bytes to its right counts.
    #[tactic(auto, unfolding(crate::specs::Checks::counts))]
    fn count(self, k: usize, d: u64) -> u64
        requires { d ≤ most_value }
        ensures { result ≡ counts self k d }
    {
        match self {
            Modulus::Ten => {
                let p = (2 - (k % 2) as u64) * d;
                p / 10 + p % 10
            }
            Modulus::Eleven | Modulus::PlainEleven => (2 + (k % 8) as u64) * d,
            Modulus::LongEleven => (2 + (k % 10) as u64) * d,
        }
    }

    // The weighted sum of a short string, which has the bytes `right` behind it. Without a test in
    // the sum, from the left and at 16 bits, the compiler takes eight bytes a turn. Modulus and strings
    // are no struct: it would be handed over by its address, and a boleto's checks, whose moduli and
    // lengths are known, would take half as many instructions again.
    fn weigh_few(self, s: &[u8], right: &[u8]) -> u64
        requires { length s.now ≤ few }
        ensures { result ≡ weighed_before self (length right.now) s.now }
    {
        let mut sum = 0u16;
        let mut k = s.len() + right.len();
        for b in s {
            k -= 1;
            sum += self.count(k, self.value_of(*b)) as u16;
        }
        sum as u64
    }

    // The same as a remainder, of a string of any length: the sum is reduced at every byte.
    fn weigh_many(self, s: &[u8], right: &[u8]) -> u64
        ensures { result ≡ weighed_before self (length right.now) s.now % base self }
    {
        let mut sum = 0;
        let mut k = s.len() + right.len();
        for b in s {
            k -= 1;
            sum = (sum + self.count(k, self.value_of(*b))) % self.base();
        }
        sum
    }

    // The weighted sum of s, which has the bytes `right` behind it, as a remainder.
    fn weigh(self, s: &[u8], right: &[u8]) -> u64
        ensures { result ≡ weighed_before self (length right.now) s.now % base self }
    {
        if FEW < s.len() {
            return self.weigh_many(s, right);
        }
        self.weigh_few(s, right) % self.base()
    }

    // The check digit for a remainder, as a byte.
    #[tactic(auto, using(crate::proofs::Small::lift_eleven), unfolding(crate::specs::Checks::lift))]
    fn lifted(self, r: u64) -> u8
        requires { r < base self }
        ensures { result ≡ digit_byte (lift self r) }
    {
        match self {
            Modulus::Ten => b'0' + ((10 - r) % 10) as u8,
            Modulus::Eleven => eleven_less(r, b'1'),
            Modulus::PlainEleven | Modulus::LongEleven => eleven_less(r, b'0'),
        }
    }
}

// The check digit of s, as a byte.
pub fn check_digit(m: Modulus, s: &[u8]) -> u8
    ensures { result ≡ digit_byte (check_digit m s.now) }
{
    m.lifted(m.weigh(s, &[]))
}

// The check digit of a and b, one behind the other, as a byte.
fn check_of(m: Modulus, a: &[u8], b: &[u8]) -> u8
    ensures { result ≡ digit_byte (check_digit m (a.now ++ b.now)) }
{
    let low = m.weigh(b, &[]);
    let high = m.weigh(a, b);
    m.lifted((low + high) % m.base())
}

// Whether the byte at index `at` is the check digit of all the others.
pub fn is_sealed(m: Modulus, s: &[u8], at: usize) -> bool
    ensures { result ≡ sealed m (at + 1) s.now }
{
    at < s.len() && check_of(m, &s[..at], &s[at + 1..]) == s[at]
}

// Whether the last byte is the check digit of those before it. By indices: behind `split_last` the
// compiler no longer sees that the strings are short.
fn ends_right(m: Modulus, s: &[u8]) -> bool
    ensures { result ≡ ends_right m s.now }
{
    if s.len() == 0 {
        return false;
    }
    let last = s.len() - 1;
    let check = check_digit(m, &s[0..last]);
    s[last] == check
}

// Whether the last byte is the check digit of those before it, and so is the one before it.
pub fn ends_right_twice(m: Modulus, s: &[u8]) -> bool
    ensures { result ≡ ends_right_twice m s.now }
{
    if s.len() == 0 {
        return false;
    }
    let first = ends_right(m, &s[0..s.len() - 1]);
    first & ends_right(m, s)
}
