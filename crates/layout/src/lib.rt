// The layout: the records, the table of their fields, kinds of field, names and places.
#![tactic(auto)]

mod bytes;
mod fixed;
pub mod kinds;
pub mod names;
mod pairs;
pub mod places;
mod registrations;
mod shapes;
mod table;

pub use bytes::copy;
pub use fixed::{BLANK, Content, ZERO};
pub use kinds::{Fill, fill_of};
pub use pairs::{Batch, batch_of, batch_with};
pub use registrations::registration_at;
pub use shapes::{Amount, House, LineType, Phase, Shape, is_same, shape_of};
pub use table::{Entry, FIELDS, FROM, KIND, Span, TABLE, TO, Table, field_at, span_of, wide};

#[derive(Clone, Copy, PartialEq, Eq)]
pub enum Direction {
    Remittance,
    Return,
}

#[derive(Clone, Copy, PartialEq, Eq)]
pub enum Record {
    FileHeader,
    BatchHeader,
    SegmentA,
    SegmentB,
    SegmentJ,
    SegmentJ52,
    SegmentZ,
    BatchTrailer,
    FileTrailer,
    SegmentO,
}

pub const RECORD_BYTES: usize = 240;
