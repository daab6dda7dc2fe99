// Digits of a line that have to give what is known: a record count, cents, or a plain number.
ghost use Rattle.std.specs.Prelude.{◌≡◌, ◌∷◌, []};
ghost use Rattle.answer.specs.Rules.{first_broken};
ghost use Rattle.checker.specs.inner.Steps.{digits_read};

use answer::{Answer, Cents, RecordCount};

// The rule that digits give the number k: a bank, the ordinal of a batch, a count of batches.
pub(crate) fn check_number(number: u8, place: usize, k: u64, part: &[u8]) -> Answer
    ensures { result ≡ first_broken (digits_read number place k part.now ∷ []) }
{
    answer::test(
        number,
        place,
        digits::number_of(part).is_some_and(|n| n == k),
    )
}

// Beside `check_cents` and not one with it: cents can't be handed over for records, nor records for cents.
pub(crate) fn check_records(number: u8, place: usize, k: RecordCount, part: &[u8]) -> Answer
    ensures { result ≡ first_broken (digits_read number place k.0 part.now ∷ []) }
{
    check_number(number, place, k.0, part)
}

pub(crate) fn check_cents(number: u8, place: usize, k: Cents, part: &[u8]) -> Answer
    ensures { result ≡ first_broken (digits_read number place k.0 part.now ∷ []) }
{
    check_number(number, place, k.0, part)
}
