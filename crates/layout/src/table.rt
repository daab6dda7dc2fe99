// The whole table is held as numbers, in const arrays: first place, last place and kind of each field,
// one record after the other.
ghost use Rattle.std.specs.Prelude.{◌≡◌, get_or};
ghost use Rattle.layout.specs.Field.{none};
ghost use Rattle.layout.specs.Table.{all};
ghost use Rattle.layout.specs.inner.Lent.{span_of, entry_in, field_of};
ghost use Rattle.layout.specs.declared.table.TheConstants.{TABLE};

use super::Record;
use super::kinds::{
    BARCODE, CODE, D, EXACT_09, EXACT_52, EXACT_C, F, FORM, ID, K, N, N_OR_BLANK, O, ONE_TWO,
    SERVICE, T, TIME, ZERO_NINE, ZERO_ONE_TWO, ZEROS,
};
use super::shapes::shape_of;

pub const FIELDS: usize = 159;

// Where each record's fields begin; the last entry is their number.
const START: [usize; 11] = [0, 22, 46, 71, 80, 101, 119, 125, 135, 143, 159];

pub const FROM: [u8; FIELDS] = [
    // File header
    1, 4, 8, 9, 18, 19, 33, 53, 58, 59, 71, 72, 73, 103, 133, 143, 144, 152, 158, 164, 167, 172,
    // Batch header
    1, 4, 8, 9, 10, 12, 14, 17, 18, 19, 33, 53, 58, 59, 71, 72, 73, 103, 143, 173, 178, 193, 213,
    231,
    // A
    1, 4, 8, 9, 14, 15, 16, 18, 21, 24, 29, 30, 42, 43, 44, 74, 94, 102, 105, 120, 135, 155, 163,
    178, 231,
    // B
    1, 4, 8, 9, 14, 15, 18, 19, 33,
    // J
    1, 4, 8, 9, 14, 15, 16, 18, 62, 92, 100, 115, 130, 145, 153, 168, 183, 203, 223, 225, 231,
    // J52
    1, 4, 8, 9, 14, 15, 16, 18, 20, 21, 36, 76, 77, 92, 132, 133, 148, 188,
    // Z
    1, 4, 8, 9, 14, 15,
    // Batch trailer
    1, 4, 8, 9, 18, 24, 42, 60, 66, 231,
    // File trailer
    1, 4, 8, 9, 18, 24, 30, 36,
    // O
    1, 4, 8, 9, 14, 15, 16, 18, 62, 92, 100, 108, 123, 143, 163, 231,
];

pub const TO: [u8; FIELDS] = [
    // File header
    3, 7, 8, 17, 18, 32, 52, 57, 58, 70, 71, 72, 102, 132, 142, 143, 151, 157, 163, 166, 171, 240,
    // Batch header
    3, 7, 8, 9, 11, 13, 16, 17, 18, 32, 52, 57, 58, 70, 71, 72, 102, 142, 172, 177, 192, 212, 230,
    240,
    // A
    3, 7, 8, 13, 14, 15, 17, 20, 23, 28, 29, 41, 42, 43, 73, 93, 101, 104, 119, 134, 154, 162, 177,
    230, 240,
    // B
    3, 7, 8, 13, 14, 17, 18, 32, 240,
    // J
    3, 7, 8, 13, 14, 15, 17, 61, 91, 99, 114, 129, 144, 152, 167, 182, 202, 222, 224, 230, 240,
    // J52
    3, 7, 8, 13, 14, 15, 17, 19, 20, 35, 75, 76, 91, 131, 132, 147, 187, 240,
    // Z
    3, 7, 8, 13, 14, 240,
    // Batch trailer
    3, 7, 8, 17, 23, 41, 59, 65, 230, 240,
    // File trailer
    3, 7, 8, 17, 23, 29, 35, 240,
    // O
    3, 7, 8, 13, 14, 15, 17, 61, 91, 99, 107, 122, 142, 162, 230, 240,
];

pub const KIND: [u8; FIELDS] = [
    // File header
    N,
    N,
    b'0',
    K,
    ZERO_ONE_TWO,
    ID,
    T,
    N,
    F,
    N,
    F,
    F,
    T,
    T,
    K,
    ONE_TWO,
    D,
    TIME,
    N,
    N,
    N,
    F,
    // Batch header
    N,
    N,
    b'1',
    EXACT_C,
    SERVICE,
    FORM,
    N,
    K,
    ZERO_ONE_TWO,
    ID,
    T,
    N,
    F,
    N,
    F,
    F,
    T,
    T,
    T,
    F,
    T,
    T,
    F,
    O,
    // A
    N,
    N,
    b'3',
    N,
    b'A',
    ZERO_NINE,
    N,
    N,
    N,
    N,
    F,
    N,
    F,
    F,
    T,
    T,
    D,
    F,
    N,
    N,
    F,
    N_OR_BLANK, // 155-162
    N_OR_BLANK, // 163-177
    F,
    O,
    // B
    N,
    N,
    b'3',
    N,
    b'B',
    F,
    ZERO_ONE_TWO,
    ID,
    F,
    // J
    N,
    N,
    b'3',
    N,
    b'J',
    ZERO_NINE,
    N,
    BARCODE,
    T,
    D,
    N,
    N,
    N,
    D,
    N,
    ZEROS,
    T,
    F,
    EXACT_09,
    K,
    O,
    // J52
    N,
    N,
    b'3',
    N,
    b'J',
    K,
    N,
    EXACT_52,
    ZERO_ONE_TWO,
    ID,
    T,
    ZERO_ONE_TWO,
    ID,
    T,
    ZERO_ONE_TWO, // 132
    ID,
    T,
    K,
    // Z
    N,
    N,
    b'3',
    N,
    b'Z',
    F,
    // Batch trailer
    N,
    N,
    b'5',
    K,
    N,
    N,
    N,
    N,
    K,
    O,
    // File trailer
    N,
    N,
    b'9',
    K,
    N,
    N,
    N,
    K,
    // O
    N,
    N,
    b'3',
    N,
    b'O',
    ZERO_NINE,
    N,
    CODE,
    T,
    D,
    D,
    N,
    T,
    F,
    K,
    O,
];

// The columns of a table: first places, last places and kinds.
#[derive(Clone, Copy)]
pub struct Table {
    pub from: [u8; FIELDS],
    pub to: [u8; FIELDS],
    pub kind: [u8; FIELDS],
}

pub const TABLE: Table = Table {
    from: FROM,
    to: TO,
    kind: KIND,
};

#[derive(Clone, Copy)]
pub struct Entry {
    pub from: usize,
    pub to: usize,
    pub kind: u8,
}

impl Table {
    // An entry; past the table's end 0s.
    pub fn entry_at(&self, f: usize) -> Entry
        ensures { result ≡ entry_in self.now f }
    {
        if f < FIELDS {
            Entry {
                from: wide(self.from[f]),
                to: wide(self.to[f]),
                kind: self.kind[f],
            }
        } else {
            Entry {
                from: 0,
                to: 0,
                kind: 0,
            }
        }
    }
}

// A field of the layout, by its number among those of all records.
pub fn field_at(f: usize) -> Entry
    ensures field { field_of result ≡ get_or all f none }
    ensures entry { result ≡ entry_in TABLE f }
{
    TABLE.entry_at(f)
}

// The fields of a record: the first, and the one past the last.
#[derive(Clone, Copy)]
pub struct Span {
    pub first: usize,
    pub past: usize,
}

// Where a record's fields stand in the table.
pub fn span_of(which: Record) -> Span
    ensures { result ≡ span_of which }
{
    let n = shape_of(which).code;
    Span {
        first: START[n],
        past: START[n + 1],
    }
}

// A byte as a number of the machine's width: a public promise, as `usize::from` has it.
pub fn wide(b: u8) -> usize
    ensures { result ≡ b }
{
    usize::from(b)
}
