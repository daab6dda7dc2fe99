// Which call is in turn, and what the file has room for: 51, 20 and 25.
ghost use Rattle.std.specs.Prelude.{◌≡◌, ◌≤◌, ◌∷◌, []};
ghost use Rattle.answer.specs.Rules.{first_broken};
ghost use Rattle.checker.specs.Machine.{most_details};
ghost use Rattle.writer.specs.Refusals.{turn_rule, turns, records_so_far, kind_given, least_details, fits_file, batch_limits, payment_limits, held};
ghost use Rattle.writer.specs.inner.Steps.{turn_of};

use super::given::MOST_RECORDS;
use answer::{Answer, RecordCount, numbers};
use checker::{Checker, MOST_BATCHES, MOST_PAYMENTS};
use fields::Fields;
use layout::{Batch, Direction, Phase, names, places};

// What opening a batch asks room for besides a payment: its header, and two trailers.
const BATCH_ENDS: RecordCount = RecordCount(3);

// The least records of a payment, where no kind of batch is named.
const LEAST_DETAILS: RecordCount = RecordCount(2);

// The trailers of the batch and of the file.
const TRAILERS: RecordCount = RecordCount(2);

// The calls that are in turn: what opens the file, a batch; a payment; what closes the batch, the file.
#[derive(Clone, Copy)]
pub(crate) struct Turns {
    pub(crate) header: bool,
    pub(crate) batch: bool,
    pub(crate) payment: bool,
    pub(crate) trailer: bool,
    pub(crate) end: bool,
}

pub(crate) fn turns_at(phase: Phase) -> Turns
    ensures { result ≡ turns phase }
{
    Turns {
        header: matches!(phase, Phase::Start),
        batch: matches!(phase, Phase::Headed | Phase::Closed),
        payment: matches!(phase, Phase::Opened | Phase::Paid | Phase::BehindZ),
        trailer: matches!(phase, Phase::Paid | Phase::BehindZ),
        end: matches!(phase, Phase::Closed),
    }
}

// Whether calls may have left this state; its sums fit then.
fn is_held(m: Checker) -> bool
    ensures { result ≡ held m }
{
    if !m.is_sound() {
        return false;
    }
    let closed = m.closed();
    let current = m.current();
    // A payment's records are bounded, and so a batch's are by its payments.
    let few = current.records().0 <= 1 + MOST_RECORDS as u64 * current.payments();
    few & closed.cents().fit_a_file(current.cents())
}

// Whether a file with these records has room for more. No sum is made that could wrap.
fn fits_file(m: Checker, more: RecordCount) -> bool
    ensures { result ≡ fits_file (records_so_far m) more.0 }
{
    let so_far = m.closed().records().plus(m.current().records());
    so_far.fit_a_file(more)
}

// The kind of batch that a header's service and form name as they are given.
fn kind_given(dir: Direction, v: Fields) -> Option<Batch>
    ensures { result ≡ kind_given dir v }
{
    let service = v.number_at(names::BATCH_HEADER_SERVICE)?;
    let form = v.number_at(names::BATCH_HEADER_FORM)?;
    layout::batch_with(dir, service, form)
}

// The least records of a payment.
fn least_details(batch: Option<Batch>) -> RecordCount
    ensures { (result.0 ≡ least_details batch) × (result.0 ≤ most_details) }
{
    match batch {
        None => LEAST_DETAILS,
        Some(_) => RecordCount(u64::from(checker::records_of(batch))),
    }
}

// What opening a batch asks beyond its turn.
pub(crate) fn batch_limits(m: Checker, v: Fields) -> Answer
    ensures { result ≡ first_broken (batch_limits v m) }
{
    let few = m.closed().batches() < MOST_BATCHES;
    answer::test(numbers::TOO_MANY, places::TYPE, few)?;
    let least = least_details(kind_given(m.direction(), v));
    answer::test(numbers::TOO_LONG, 0, fits_file(m, least.plus(BATCH_ENDS)))
}

// What a payment of so many records asks beyond its turn.
pub(crate) fn payment_limits(m: Checker, details: RecordCount) -> Answer
    requires { details.0 ≤ most_details }
    ensures { result ≡ first_broken (payment_limits details.0 m) }
{
    let few = m.current().payments() < MOST_PAYMENTS;
    answer::test(numbers::TOO_MANY, places::SEGMENT, few)?;
    answer::test(numbers::TOO_LONG, 0, fits_file(m, details.plus(TRAILERS)))
}

// A call's answer by its turn alone.
pub(crate) fn test_turn(may: bool) -> Answer
    ensures { result ≡ first_broken (turn_rule may ∷ []) }
{
    answer::test(numbers::OUT_OF_TURN, 0, may)
}

// The answer before any record is looked at: what is asked of the call, on the line that is next.
pub(crate) fn check_turn(m: Checker, asked: Answer) -> Answer
    ensures { result ≡ turn_of m asked }
{
    if !is_held(m) {
        return answer::refused(numbers::OUT_OF_TURN, 0);
    }
    answer::on_line(asked, m.next_line())
}
