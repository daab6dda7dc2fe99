// The order of lines: which may follow, and what a line is read as.
ghost use Rattle.std.specs.Prelude.{◌≡◌, ◌∷◌, [], length, take, drop};
ghost use Rattle.checker.specs.Order.{payment, record_at, reading_of, follows, ended, read_as};
ghost use Rattle.checker.specs.inner.Steps.{end_as};

use layout::{Batch, Direction, Phase, Record};

// The byte at a detail's type, and the letter that Z is known by.
const DETAIL: u8 = b'3';

const LETTER_Z: u8 = b'Z';

// Whether the file trailer was accepted.
pub fn is_ended(phase: Phase) -> bool
    ensures { result ≡ ended phase }
{
    phase == Phase::Ended
}

// The record at a position of one, from 0 on; behind it there is none.
fn of_one(position: u8, only: Record) -> Option<Record>
    ensures { result ≡ reading_of (take 1 (drop position (only ∷ []))) }
{
    match position {
        0 => Some(only),
        _ => None,
    }
}

// The record at a position of two, from 0 on; behind the last there is none.
fn of_two(position: u8, first: Record, second: Record) -> Option<Record>
    ensures { result ≡ reading_of (take 1 (drop position (first ∷ second ∷ []))) }
{
    match position {
        0 => Some(first),
        1 => Some(second),
        _ => None,
    }
}

// The record at a position of a payment; between batches there is none.
pub fn record_at(batch: Option<Batch>, position: u8) -> Option<Record>
    ensures { result ≡ reading_of (record_at position batch) }
{
    match batch? {
        Batch::Credit => of_two(position, Record::SegmentA, Record::SegmentB),
        Batch::Boleto => of_two(position, Record::SegmentJ, Record::SegmentJ52),
        Batch::Collection => of_one(position, Record::SegmentO),
    }
}

// How many records a payment has, a Z behind them not counted.
pub fn records_of(batch: Option<Batch>) -> u8
    ensures { result ≡ length (payment batch) }
{
    match batch {
        Some(Batch::Credit | Batch::Boleto) => 2,
        Some(Batch::Collection) => 1,
        None => 0,
    }
}

// What a detail is read as: the one that is expected. Z alone may be left out, and is known by its letter.
fn detail_reading(phase: Phase, dir: Direction, batch: Option<Batch>, segment: u8) -> Option<Record>
    ensures { result ≡ read_as 51 segment (follows phase dir batch) }
{
    match phase {
        Phase::Start | Phase::Headed | Phase::Closed | Phase::Ended => None,
        Phase::Within(position) => record_at(batch, position),
        // A Z stands in returns only.
        Phase::Paid if (dir == Direction::Return) & (segment == LETTER_Z) => {
            Some(Record::SegmentZ)
        }
        Phase::Opened | Phase::Paid | Phase::BehindZ => record_at(batch, 0),
    }
}

// What a header or a trailer is read as.
fn end_reading(phase: Phase, kind: u8) -> Option<Record>
    ensures { result ≡ end_as phase kind }
{
    match (phase, kind) {
        (Phase::Start, b'0') => Some(Record::FileHeader),
        (Phase::Headed | Phase::Closed, b'1') => Some(Record::BatchHeader),
        (Phase::Paid | Phase::BehindZ, b'5') => Some(Record::BatchTrailer),
        (Phase::Closed, b'9') => Some(Record::FileTrailer),
        _ => None,
    }
}

// What a line of this type and segment is read as.
pub(crate) fn line_reading(
    phase: Phase,
    dir: Direction,
    batch: Option<Batch>,
    kind: u8,
    segment: u8,
) -> Option<Record>
    ensures { result ≡ read_as kind segment (follows phase dir batch) }
{
    if kind == DETAIL {
        detail_reading(phase, dir, batch, segment)
    } else {
        end_reading(phase, kind)
    }
}
