// A payment's records, one behind the other.
ghost use Rattle.std.specs.Prelude.{◌≡◌, true, ◌≤◌, length, drop};
ghost use mathlib.Core.List.{◌∷◌, [], ◌++◌, flatten};
ghost use Rattle.answer.specs.Rules.{first_broken};
ghost use Rattle.layout.specs.Records.{is_one_of};
ghost use Rattle.fields.specs.Values.{or_zero, number_at};
ghost use Rattle.checker.specs.Machine.{sound};
ghost use Rattle.writer.specs.Given.{amount_of};
ghost use Rattle.writer.specs.Refusals.{z_in, sum_rule, size};
ghost use Rattle.writer.specs.inner.Steps.{lines_with, expected_at, AllRight, TriesPayment, MayPay};

use super::given::{MOST_RECORDS, Payment};
use super::records::{Tried, put_line, try_record};
use answer::{Answer, Cents, Refusal, numbers};
use checker::{Checker, LINE_BYTES};
use fields::{Fields, Made};
use layout::names::Name;
use layout::{Amount, Batch, Direction, Record, names};

// The records of a payment, which are made; behind the last nothing is. Memory is fixed, and so there
// is room for the most.
type MadeRecords = [Made; MOST_RECORDS];

// Whether a record is a Z, and may be one.
fn is_z(which: Record, dir: Direction) -> bool
    ensures { result ≡ is_one_of which (z_in dir) }
{
    dir == Direction::Return && layout::is_same(which, Record::SegmentZ)
}

// Whether a record is the one that is expected at a position of a payment: the payment's own, or
// behind the last, in a return, a Z.
fn is_expected(which: Record, dir: Direction, batch: Option<Batch>, position: u8) -> bool
    ensures { result ≡ expected_at position dir batch which }
{
    match checker::record_at(batch, position) {
        Some(expected) => layout::is_same(which, expected),
        None => {
            let behind_last = (position != 0) & (position == checker::records_of(batch));
            behind_last & is_z(which, dir)
        }
    }
}

// The cents of a field; 0 where they are not given, and no record is right without its amount.
fn cents_at(v: Fields, name: Name) -> Cents
    ensures { result.0 ≡ or_zero (number_at name v) }
{
    Cents(v.number_at(name).unwrap_or(0))
}

// The amount of a payment stands in its first record.
fn amount_of(v: Fields) -> Cents
    ensures { result.0 ≡ amount_of v.which v }
{
    match layout::shape_of(v.which).amount {
        None => Cents(0),
        Some(Amount::OfA) => cents_at(v, names::A_AMOUNT),
        Some(Amount::OfJ) => cents_at(v, names::J_AMOUNT),
        Some(Amount::OfO) => cents_at(v, names::O_AMOUNT),
    }
}

// All records of a payment, up to the first that is refused. Nothing is written yet.
pub(crate) fn try_payment(m: Checker, p: Payment) -> Result<Tried<MadeRecords>, Refusal>
    requires { MayPay m }
    ensures { TriesPayment m p result }
{
    let dir = m.direction();
    let batch = m.batch();
    let mut made = [Made::none(); MOST_RECORDS];
    let mut checker = m;
    for position in 0..p.records() {
        let v = p.record_at(position);
        let expected = is_expected(v.which, dir, batch, position as u8);
        let tried = try_record(checker, expected, v)?;
        made[position] = tried.made;
        checker = tried.checker;
    }
    Ok(Tried { checker, made })
}

// The lines of records, each over its part of this part of the output.
pub(crate) fn put_payment(made: &[Made], part: &mut [u8])
    requires all_right { AllRight made.now }
    requires room { size (length made.now) ≤ length part.old }
    ensures { part.new ≡ flatten (lines_with made.now) ++ drop (size (length made.now)) part.old }
{
    for (k, record) in made.iter().enumerate() {
        put_line(*record, &mut part[k * LINE_BYTES..]);
    }
}

// The sum of all payments so far, with this one. What was paid so far fits 64 bits; the amount may be
// any number.
pub(crate) fn check_sum(m: Checker, p: Payment) -> Answer
    requires { sound m ≡ true }
    ensures { result ≡ first_broken (sum_rule m p ∷ []) }
{
    let paid = m.closed().cents().plus(m.current().cents());
    let fits = paid.fit_a_file(amount_of(p.first_record()));
    answer::test(numbers::FILE_SUM, 0, fits)
}
