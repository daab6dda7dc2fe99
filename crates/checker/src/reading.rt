// A line's record, and what it is read as.
ghost use Rattle.std.specs.Prelude.{◌≡◌};
ghost use Rattle.layout.specs.Records.{shape_of};

use layout::{RECORD_BYTES, Record, Shape};

// The record's bytes, what they are read as, and the row of that.
#[derive(Clone, Copy)]
pub(crate) struct Reading<'a> {
    pub(crate) rec: &'a [u8; RECORD_BYTES],
    pub(crate) which: Record,
    pub(crate) shape: Shape,
    ghost row: { shape ≡ shape_of which },
}

impl<'a> Reading<'a> {
    pub(crate) fn of(which: Record, rec: &'a [u8; RECORD_BYTES]) -> Reading<'a>
        ensures bytes { result.rec.now ≡ rec.now }
        ensures record { result.which ≡ which }
    {
        Reading {
            rec,
            which,
            shape: layout::shape_of(which),
        }
    }
}
