// The records, a row each: what a record is to the file.
ghost use Rattle.std.specs.Prelude.{◌≡◌, eqb, None};
ghost use Rattle.layout.specs.Records.{code, is_detail, shape, no_letter, shape_of};
ghost use Rattle.layout.specs.declared.shapes.LineType.TheVariants.{Detail};

use super::Record;

// The type of a line, by what it is to the file: 0, 1, 3, 5 and 9.
#[derive(Clone, Copy, PartialEq, Eq)]
pub enum LineType {
    FileFirst,
    BatchFirst,
    Detail,
    BatchLast,
    FileLast,
}

impl LineType {
    // Whether the line is a detail, which has a number and a letter.
    pub fn is_detail(self) -> bool
        ensures { result ≡ is_detail self }
    {
        matches!(self, LineType::Detail)
    }
}

// By what was accepted last: nothing, the file header, a batch header, so many records of a payment that
// has more, its last, a Z, a batch trailer, the file trailer.
#[derive(Clone, Copy, PartialEq, Eq)]
pub enum Phase {
    Start,
    Headed,
    Opened,
    Within(u8),
    Paid,
    BehindZ,
    Closed,
    Ended,
}

// The amount of a payment, which its first record has.
#[derive(Clone, Copy, PartialEq, Eq)]
pub enum Amount {
    OfA,
    OfJ,
    OfO,
}

// What the house asks of a record behind its fields.
#[derive(Clone, Copy, PartialEq, Eq)]
pub enum House {
    RulesOfJ,
    OneId,
    ThreeIds,
    RulesOfO,
}

// A record's number in the table, the type of its line, the letter of a detail, the phase behind it,
// its amount, and what the house asks of it. The letter is no option, 0 in other lines: rule 11 of
// every detail compares it as a byte.
#[derive(Clone, Copy)]
pub struct Shape {
    pub code: usize,
    pub line: LineType,
    pub letter: u8,
    pub after: Phase,
    pub amount: Option<Amount>,
    pub house: Option<House>,
}

const NO_LETTER: u8 = 0;

// The row of a header or a trailer, which has no letter and no amount.
fn end(code: usize, line: LineType, after: Phase, house: Option<House>) -> Shape
    ensures { result ≡ shape code line no_letter after None house }
{
    Shape {
        code,
        line,
        letter: NO_LETTER,
        after,
        amount: None,
        house,
    }
}

fn detail(
    code: usize,
    letter: u8,
    after: Phase,
    amount: Option<Amount>,
    house: Option<House>,
) -> Shape
    ensures { result ≡ shape code Detail letter after amount house }
{
    Shape {
        code,
        line: LineType::Detail,
        letter,
        after,
        amount,
        house,
    }
}

// The row of a record.
pub fn shape_of(which: Record) -> Shape
    ensures { result ≡ shape_of which }
{
    match which {
        Record::FileHeader => end(0, LineType::FileFirst, Phase::Headed, Some(House::OneId)),
        Record::BatchHeader => end(1, LineType::BatchFirst, Phase::Opened, Some(House::OneId)),
        Record::SegmentA => detail(2, b'A', Phase::Within(1), Some(Amount::OfA), None),
        Record::SegmentB => detail(3, b'B', Phase::Paid, None, Some(House::OneId)),
        Record::SegmentJ => detail(
            4,
            b'J',
            Phase::Within(1),
            Some(Amount::OfJ),
            Some(House::RulesOfJ),
        ),
        Record::SegmentJ52 => detail(5, b'J', Phase::Paid, None, Some(House::ThreeIds)),
        Record::SegmentZ => detail(6, b'Z', Phase::BehindZ, None, None),
        Record::BatchTrailer => end(7, LineType::BatchLast, Phase::Closed, None),
        Record::FileTrailer => end(8, LineType::FileLast, Phase::Ended, None),
        Record::SegmentO => detail(
            9,
            b'O',
            Phase::Paid,
            Some(Amount::OfO),
            Some(House::RulesOfO),
        ),
    }
}

// Whether two records are the same one: a public promise, over the records' numbers, that `==` has not.
pub fn is_same(which: Record, other: Record) -> bool
    ensures { result ≡ eqb (code which) (code other) }
{
    which == other
}
