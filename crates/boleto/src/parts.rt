// The parts of a string, by their places as the paper counts them: copied, and their check digits.
ghost use Rattle.std.specs.Prelude.{◌≡◌, ◌∷◌, [], ◌+◌, ◌-◌, ◌≤◌, length};
ghost use Rattle.answer.specs.Rules.{first_broken};
ghost use Rattle.digits.specs.Digits.{places};
ghost use Rattle.boleto.specs.Parts.{part_rule};
ghost use Rattle.boleto.specs.inner.Steps.{laid, sealing};

use answer::Answer;
use digits::Modulus;

// The places from `first` to `last`, both among them.
#[derive(Clone, Copy)]
pub(crate) struct Part {
    first: usize,
    last: usize,
    ghost in_order: { (1 ≤ first) × (first ≤ last) },
}

pub(crate) fn places(first: usize, last: usize) -> Part
    requires { (1 ≤ first) × (first ≤ last) }
    ensures { (result.first ≡ first) × (result.last ≡ last) }
{
    Part { first, last }
}

impl Part {
    // This part of s.
    fn of(self, s: &[u8]) -> &[u8]
        requires { self.last ≤ length s.now }
        ensures { result.now ≡ places self.first self.last s.now }
    {
        &s[self.first - 1..self.last]
    }
}

// Copies a part of src to out, from place `to` on.
pub(crate) fn put(src: &[u8], part: Part, out: &mut [u8], to: usize)
    requires in_src { part.last ≤ length src.now }
    requires in_out { (1 ≤ to) × (to + (part.last - part.first) ≤ length out.old) }
    ensures { out.new ≡ laid out.old to src.now part.first part.last }
{
    let part = part.of(src);
    out[to - 1..to - 1 + part.len()].copy_from_slice(part);
}

// Writes at the last place of a part the check digit of those before it.
pub(crate) fn seal(m: Modulus, out: &mut [u8], part: Part)
    requires { part.last ≤ length out.old }
    ensures { out.new ≡ sealing m out.old part.first part.last }
{
    out[part.last - 1] = digits::check_digit(m, &out[part.first - 1..part.last - 1]);
}

// The check digit at the end of a part of a line. A wrong one is refused there, with `number`.
pub(crate) fn check_part(number: u8, m: Modulus, line: &[u8], part: Part) -> Answer
    requires { part.last ≤ length line.now }
    ensures { result ≡ first_broken (part_rule number m part.first part.last line.now ∷ []) }
{
    let sealed = digits::is_sealed(m, part.of(line), part.last - part.first);
    answer::test(number, part.last, sealed)
}
