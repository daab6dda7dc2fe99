// One record against the layout table: its bytes, its type and segment, and its fields.
#![tactic(auto)]

mod bytes;
mod looks;
mod masks;
mod walk;

ghost use Rattle.std.specs.Prelude.{◌≡◌};
ghost use Rattle.answer.specs.Rules.{first_broken};
ghost use Rattle.layout.specs.Record.{record_rules, some_rules};
ghost use Rattle.walk.specs.Parts.{in_parts};

use answer::{Answer, numbers};
pub use bytes::check_bytes;
use layout::{Direction, FIELDS, RECORD_BYTES, Record};
use walk::Checked;

// The answers of a record's fields in three parts, cut at two indexes.
#[derive(Clone, Copy)]
pub struct Parts {
    pub front: Answer,
    pub middle: Answer,
    pub rest: Answer,
}

// One record alone: its length, its bytes, its type and segment, then all its fields. The length is
// asked here and in the two below, three lines each: a function that hands the array on, with its
// refusal, was proved, and takes more lines than it saves.
pub fn check_record(rec: &[u8], which: Record, dir: Direction) -> Answer
    ensures { result ≡ first_broken (record_rules which dir rec.now) }
{
    let Some(rec) = rec.as_array::<RECORD_BYTES>() else {
        return answer::refused(numbers::WRONG_LENGTH, 0);
    };
    let checked = Checked::new(rec, which, dir);
    let clean = check_bytes(rec);
    let marks = checked.check_marks();
    let fields = checked.check_fields(0, FIELDS);
    clean.and(marks.and(fields))
}

// Some fields of a record: those from the index `first` up to `past`. Whoever has looked at the
// record's head asks for those behind it.
pub fn check_fields(rec: &[u8], which: Record, dir: Direction, first: usize, past: usize) -> Answer
    ensures { result ≡ first_broken (some_rules which dir first past rec.now) }
{
    let Some(rec) = rec.as_array::<RECORD_BYTES>() else {
        return answer::refused(numbers::WRONG_LENGTH, 0);
    };
    Checked::new(rec, which, dir).check_fields(first, past)
}

// Some fields of a record in three parts, for whoever asks something else between them: from the
// index `first` up to `second`, up to `third`, and from there on. The masks are tested once for all
// three.
pub fn check_parts(
    rec: &[u8],
    which: Record,
    dir: Direction,
    first: usize,
    second: usize,
    third: usize,
) -> Parts
    ensures { result ≡ in_parts which dir first second third rec.now }
{
    let Some(rec) = rec.as_array::<RECORD_BYTES>() else {
        let refused = answer::refused(numbers::WRONG_LENGTH, 0);
        return Parts {
            front: refused,
            middle: refused,
            rest: refused,
        };
    };
    let checked = Checked::new(rec, which, dir);
    Parts {
        front: checked.check_fields(first, second),
        middle: checked.check_fields(second, third),
        rest: checked.check_fields(third, FIELDS),
    }
}
