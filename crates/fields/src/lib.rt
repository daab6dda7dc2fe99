// A record's fields as one value: read from a record, and written as one. A name of one record used
// with the fields of another spoils them: no call takes them as they stand.
#![tactic(auto)]

mod reading;
mod table;
mod text;
mod writing;

ghost use Rattle.std.specs.Prelude.{◌≡◌};
ghost use Rattle.fields.specs.Values.{no_fields, blank_fields, is_of, spoiled, taken_as, give_nth, give_number, number_at, with_number, with_text, not_given};

use answer::{Cents, RecordCount};
use layout::names::Name;
use layout::{BLANK, RECORD_BYTES, Record};
pub use reading::read_record;
pub use table::{count, is_number, may_be_absent};
use text::text_with;
pub use writing::{Made, check_bytes, make_record, write_record};

// As many numbers as there is room for.
const MOST_FIELDS: usize = 32;

// The fields of a record. The i-th number is that of the record's i-th field, where it is held as a
// number, and none where it is not given; layout::names has the fields' names. The text has the other
// fields' bytes at their places.
#[derive(Clone, Copy)]
pub struct Fields {
    pub which: Record,
    pub numbers: [Option<u64>; MOST_FIELDS],
    pub text: [u8; RECORD_BYTES],
}

impl Fields {
    // 0 for every number, and no text yet.
    pub fn none(which: Record) -> Fields
        ensures { result ≡ no_fields which }
    {
        Fields {
            which,
            numbers: [Some(0); MOST_FIELDS],
            text: [0; RECORD_BYTES],
        }
    }

    // 0 for every number, and blanks for text.
    pub fn blank(which: Record) -> Fields
        ensures { result ≡ blank_fields which }
    {
        Fields {
            text: [BLANK; RECORD_BYTES],
            ..Fields::none(which)
        }
    }

    // Fields that every call refuses: no number fits its field, and no byte may stand in a record.
    fn spoiled(which: Record) -> Fields
        ensures { result ≡ spoiled which }
    {
        Fields {
            numbers: [Some(u64::MAX); MOST_FIELDS],
            ..Fields::none(which)
        }
    }

    // Whether they are the fields of this record.
    fn is_of(&self, which: Record) -> bool
        ensures { result ≡ is_of which self.now }
    {
        layout::is_same(self.which, which)
    }

    // These fields, if they are of this record; if not, fields of it that every call refuses.
    pub fn taken_as(self, which: Record) -> Fields
        ensures { result ≡ taken_as which self }
    {
        if self.is_of(which) {
            self
        } else {
            Fields::spoiled(which)
        }
    }

    // A field's number; there is none where it is not given, none of another record, and none past the
    // last field.
    pub fn number_at(self, name: Name) -> Option<u64>
        ensures { result ≡ number_at name self }
    {
        let Name(which, field) = name;
        if self.is_of(which) && field < count(self.which) {
            self.numbers[field]
        } else {
            None
        }
    }

    // The same fields with another number at an index, or with none given there. Put in line, and so is
    // what calls it down to `with_records`: each call of its own would copy the fields.
    #[inline(always)]
    fn give_nth(mut self, field: usize, m: Option<u64>) -> Fields
        ensures { result ≡ give_nth field m self }
    {
        if field < MOST_FIELDS {
            self.numbers[field] = m;
        }
        self
    }

    // The same by a name; by one of another record, fields that every call refuses.
    #[inline(always)]
    fn give_number(self, name: Name, m: Option<u64>) -> Fields
        ensures { result ≡ give_number name m self }
    {
        if self.is_of(name.0) {
            self.give_nth(name.1, m)
        } else {
            Fields::spoiled(self.which)
        }
    }

    // The same fields with another number; by a name of another record, fields that every call refuses.
    #[inline(always)]
    pub fn with_number(self, name: Name, n: u64) -> Fields
        ensures { result ≡ with_number name n self }
    {
        self.give_number(name, Some(n))
    }

    // The same of cents. Beside `with_records`, and not one call that takes `impl Into<u64>`: that would
    // take cents where records are due.
    #[inline(always)]
    pub fn with_cents(self, name: Name, cents: Cents) -> Fields
        ensures { result ≡ with_number name cents.0 self }
    {
        self.with_number(name, cents.0)
    }

    // The same of a count of records.
    #[inline(always)]
    pub fn with_records(self, name: Name, records: RecordCount) -> Fields
        ensures { result ≡ with_number name records.0 self }
    {
        self.with_number(name, records.0)
    }

    // The same fields with these bytes at the first places of a field, as many as it has; past the last
    // field nothing changes. By a name of another record, fields that every call refuses.
    pub fn with_text(self, name: Name, bytes: &[u8]) -> Fields
        ensures { result ≡ with_text name bytes.now self }
    {
        if self.is_of(name.0) {
            let text = text_with(self.text, self.which, name.1, bytes);
            Fields { text, ..self }
        } else {
            Fields::spoiled(self.which)
        }
    }

    // The same fields with one that is not given: it is written as blanks, which is the fault that blanks
    // there are, and none in a number that may be absent. By a name of another record, fields that every
    // call refuses.
    pub fn not_given(self, name: Name) -> Fields
        ensures { result ≡ not_given name self }
    {
        self.give_number(name, None)
            .with_text(name, &[BLANK; RECORD_BYTES])
    }
}
