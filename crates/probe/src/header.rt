// The header of a request: op (1), record kind (1, '-' if unused), direction ('1', '2' or '-'), room
// (6 digits), payload length (6 digits), LF. Record kinds: 0 file header, 1 batch header, A, B, J, 2
// for J52, O, Z, 5 batch trailer, 9 file trailer.
ghost use Rattle.std.specs.Prelude.{◌≡◌, ◌≤◌, length, IfSome};
ghost use Rattle.probe.specs.inner.Sizes.{announced_digits, most_announced, most_bytes};

use super::{HEADER_BYTES, MOST_BYTES};
use layout::{Direction, Record};

// Where room and length begin, how many digits they have, and where LF stands.
const ROOM: usize = 3;

const LENGTH: usize = 9;

pub(crate) const DIGITS: usize = 6;

const END: usize = 15;

#[derive(Clone, Copy)]
pub(crate) enum Op {
    BarcodeToLine,
    LineToBarcode,
    CodeToLine,
    LineToCode,
    ReadRecord(Record, Direction),
    WriteRecord(Record, Direction),
    CheckFile,
    StepLines,
    TakeParts,
    Script,
}

// A malformed one has no op; its payload is skipped.
#[derive(Clone, Copy)]
pub(crate) struct Header {
    pub(crate) op: Option<Op>,
    pub(crate) room: usize,
    pub(crate) length: usize,
}

// The number that six digits announce.
pub(crate) fn announced(text: &[u8]) -> Option<usize>
    requires { length text.now ≡ announced_digits }
    ensures { IfSome result (λ n. n ≤ most_announced) }
{
    let n = digits::number_of(text)?;
    Some(n as usize)
}

// An option, as `direction_of` and `op_of`, and no `TryFrom`: there is nothing to say of another byte.
pub(crate) fn record_of(kind: u8) -> Option<Record> {
    match kind {
        b'0' => Some(Record::FileHeader),
        b'1' => Some(Record::BatchHeader),
        b'A' => Some(Record::SegmentA),
        b'B' => Some(Record::SegmentB),
        b'J' => Some(Record::SegmentJ),
        b'2' => Some(Record::SegmentJ52),
        b'Z' => Some(Record::SegmentZ),
        b'O' => Some(Record::SegmentO),
        b'5' => Some(Record::BatchTrailer),
        b'9' => Some(Record::FileTrailer),
        _ => None,
    }
}

fn direction_of(byte: u8) -> Option<Direction> {
    match byte {
        b'1' => Some(Direction::Remittance),
        b'2' => Some(Direction::Return),
        _ => None,
    }
}

// An op on a digit string or on lines has no record kind, and any direction.
fn plain_op(op: u8) -> Option<Op> {
    match op {
        b'B' => Some(Op::BarcodeToLine),
        b'D' => Some(Op::LineToBarcode),
        b'b' => Some(Op::CodeToLine),
        b'd' => Some(Op::LineToCode),
        b'F' => Some(Op::CheckFile),
        b'L' => Some(Op::StepLines),
        b'T' => Some(Op::TakeParts),
        b'P' => Some(Op::Script),
        _ => None,
    }
}

fn op_of(op: u8, kind: u8, direction: u8) -> Option<Op> {
    match (op, kind, direction) {
        (b'C', _, _) => Some(Op::ReadRecord(record_of(kind)?, direction_of(direction)?)),
        (b'W', _, _) => Some(Op::WriteRecord(record_of(kind)?, direction_of(direction)?)),
        (_, b'-', b'1' | b'2' | b'-') => plain_op(op),
        _ => None,
    }
}

// A room or a length that can't be read counts as 0.
pub(crate) fn parse(head: &[u8; HEADER_BYTES]) -> Header
    ensures room_fits { result.room ≤ most_bytes }
    ensures length_fits { result.length ≤ most_announced }
{
    let room = announced(&head[ROOM..LENGTH]).filter(|room| *room <= MOST_BYTES);
    let length = announced(&head[LENGTH..END]);
    let fits = room.is_some() && length.is_some_and(|length| length <= MOST_BYTES);
    let op = if fits && head[END] == b'\n' {
        op_of(head[0], head[1], head[2])
    } else {
        None
    };
    Header {
        op,
        room: room.unwrap_or(0),
        length: length.unwrap_or(0),
    }
}
