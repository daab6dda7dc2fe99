// What the writer fills: the bank of every later record, the numbering, the counts and the sum.
#![tactic(auto)]

ghost use Rattle.std.specs.Prelude.{◌≡◌, cond};
ghost use Rattle.layout.specs.declared.Record.TheVariants.{BatchTrailer, FileTrailer};
ghost use Rattle.checker.specs.Machine.{sound};
ghost use Rattle.checker.specs.inner.Steps.{Bounded};
ghost use Rattle.filling.specs.Filling.{filled_line, filled_in_batch, filled_detail, filled_batch_trailer, filled_file_trailer, filled};

use checker::{Checker, HEADER_BATCH, TRAILER_BATCH};
use fields::Fields;
use layout::{LineType, names};

// What all lines have.
fn fill_line(v: Fields, bank: u64, batch: u64) -> Fields
    ensures { result ≡ filled_line v.which bank batch v }
{
    v.with_number(names::bank(v.which), bank)
        .with_number(names::batch_number(v.which), batch)
}

fn fill_in_batch(m: Checker, v: Fields) -> Fields
    requires { Bounded m }
    ensures { result ≡ filled_in_batch v.which m v }
{
    fill_line(v, m.bank(), m.closed().batches() + 1)
}

// The header of the batch counts, so its records number the next detail from 1.
fn fill_detail(m: Checker, v: Fields) -> Fields
    requires { Bounded m }
    ensures { result ≡ filled_detail v.which m v }
{
    fill_in_batch(m, v).with_records(names::detail_number(v.which), m.current().records())
}

fn fill_batch_trailer(m: Checker, v: Fields) -> Fields
    requires bounded { Bounded m }
    requires which_value { v.which ≡ BatchTrailer }
    ensures { result ≡ filled_batch_trailer m v }
{
    let current = m.current();
    fill_in_batch(m, v)
        .with_records(names::BATCH_TRAILER_RECORDS, current.records().and_one())
        .with_cents(names::BATCH_TRAILER_SUM, current.cents())
}

fn fill_file_trailer(m: Checker, v: Fields) -> Fields
    requires bounded { Bounded m }
    requires which_value { v.which ≡ FileTrailer }
    ensures { result ≡ filled_file_trailer m v }
{
    let closed = m.closed();
    fill_line(v, m.bank(), TRAILER_BATCH)
        .with_number(names::FILE_TRAILER_BATCHES, closed.batches())
        .with_records(names::FILE_TRAILER_RECORDS, closed.records().and_one())
}

// What all records have and each is given, by its line. A state that no run produces fills nothing.
pub fn fill(m: Checker, v: Fields) -> Fields
    ensures { result ≡ cond (sound m) (filled v.which m v) v }
{
    if !m.is_sound() {
        return v;
    }
    match layout::shape_of(v.which).line {
        LineType::FileFirst => v.with_number(names::batch_number(v.which), HEADER_BATCH),
        LineType::BatchFirst => fill_in_batch(m, v),
        LineType::Detail => fill_detail(m, v),
        LineType::BatchLast => fill_batch_trailer(m, v),
        LineType::FileLast => fill_file_trailer(m, v),
    }
}
