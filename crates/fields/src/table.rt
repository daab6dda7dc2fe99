// The fields of a record, one by one.
ghost use Rattle.std.specs.Prelude.{◌≡◌, ◌+◌, ◌<◌, length};
ghost use Rattle.layout.specs.inner.Lent.{field_count, start_of};
ghost use Rattle.layout.specs.Table.{fields_of};
ghost use Rattle.layout.specs.inner.Entries.{Stands};
ghost use Rattle.fields.specs.Values.{is_number_at, may_be_absent_at};

use layout::{Entry, Fill, Record};

// A field of the layout that is there.
pub(crate) fn field_at(f: usize) -> Entry
    requires { f < field_count }
    ensures { Stands f result.from result.to result.kind }
{
    layout::field_at(f)
}

// A field of a record.
pub(crate) fn entry_of(which: Record, field: usize) -> Entry
    requires { field < length (fields_of which) }
    ensures { Stands (start_of which + field) result.from result.to result.kind }
{
    let s = layout::span_of(which);
    field_at(s.first + field)
}

// How many fields a record has.
pub fn count(which: Record) -> usize
    ensures { result ≡ length (fields_of which) }
{
    let s = layout::span_of(which);
    s.past - s.first
}

// Whether a field of a record is held as a number.
pub fn is_number(which: Record, field: usize) -> bool
    ensures { result ≡ is_number_at which field }
{
    field < count(which) && matches!(layout::fill_of(entry_of(which, field).kind), Fill::Number)
}

// Whether a field of a record is held as a number that may be not given.
pub fn may_be_absent(which: Record, field: usize) -> bool
    ensures { result ≡ may_be_absent_at which field }
{
    field < count(which) && layout::kinds::may_be_absent(entry_of(which, field).kind)
}
