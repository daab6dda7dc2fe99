// Reading: the check, then the fields.
ghost use Rattle.std.specs.Prelude.{◌≡◌, length};
ghost use Rattle.layout.specs.inner.Lent.{kind_of};
ghost use Rattle.layout.specs.Table.{record_bytes};
ghost use Rattle.layout.specs.Kinds.{means};
ghost use Rattle.fields.specs.Values.{number_in, fields_in, read_record};

use super::table::field_at;
use super::{Fields, MOST_FIELDS};
use answer::Refusal;
use layout::{Direction, Fill, RECORD_BYTES, Record};

// The number that a field's digits give, and none where it is not given; 0 where it is not held as a
// number.
fn number_in(k: u8, part: &[u8]) -> Option<u64>
    ensures { result ≡ number_in (means (kind_of k)).held part.now }
{
    match layout::fill_of(k) {
        Fill::Number => digits::number_of(part),
        Fill::Text | Fill::Fixed(_) => Some(0),
    }
}

// Each field's number, or that it is not given, and the record's bytes as they stand.
fn fields_of(rec: &[u8], which: Record) -> Fields
    requires { length rec.now ≡ record_bytes }
    ensures { result ≡ fields_in which rec.now }
{
    let s = layout::span_of(which);
    let mut numbers = [Some(0); MOST_FIELDS];
    for f in s.first..s.past {
        let e = field_at(f);
        numbers[f - s.first] = number_in(e.kind, &rec[e.from - 1..e.to]);
    }
    let mut text = [0; RECORD_BYTES];
    text.copy_from_slice(rec);
    Fields {
        which,
        numbers,
        text,
    }
}

// A record's fields, if the check of one record alone accepts it.
pub fn read_record(rec: &[u8], which: Record, dir: Direction) -> Result<Fields, Refusal>
    ensures { result ≡ read_record which dir rec.now }
{
    walk::check_record(rec, which, dir)?;
    Ok(fields_of(rec, which))
}
