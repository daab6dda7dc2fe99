// The walk over a record's fields and their bytes, left at the first wrong byte.
ghost use Rattle.std.specs.Prelude.{◌≡◌, ◌≤◌, ◌+◌, length};
ghost use Rattle.std.proofs.Math.Seq.{slice};
ghost use Rattle.answer.specs.Rules.{first_broken};
ghost use Rattle.layout.specs.inner.Lent.{field_count, start_of};
ghost use Rattle.layout.specs.Table.{marks, fields_of, all};
ghost use Rattle.layout.specs.Record.{rules_of};
ghost use Rattle.walk.specs.inner.Masks.{Known, within, lows_of, highs_of};

use super::looks::{Look, look_at};
use super::masks::hold;
use answer::{Answer, numbers};
use layout::kinds::is_whole;
use layout::{Direction, RECORD_BYTES, Record, shape_of};

// Where type and segment stand among a record's fields.
const TYPE_FIELD: usize = 2;

const SEGMENT_FIELD: usize = 4;

// The rules of the fields from `first` up to `past`. Where the record lies between its masks, a field
// whose rule asks no more than they tell is right, and is not looked at.
// No method of `Checked`: then `first` and `past` would have to lie in that record's own fields.
fn walk(rec: &[u8; RECORD_BYTES], first: usize, past: usize, dir: Direction, masked: bool) -> Answer
    requires in_order { first ≤ past }
    requires in_table { past ≤ field_count }
    requires known { Known masked first past dir rec.now }
    ensures { result ≡ first_broken (rules_of (slice first past all) dir rec.now) }
{
    'fields: {
        for f in first..past {
            let e = layout::field_at(f);
            if masked & !is_whole(e.kind) {
                continue;
            }
            let place = e.from;
            let part = &rec[place - 1..e.to];
            match look_at(e.kind, dir, part, rec, place) {
                Look::Digits => {
                    for b in part {
                        let is_digit = (b'0' <= *b) & (*b <= b'9');
                        if !is_digit {
                            break 'fields answer::refused(numbers::NON_DIGIT, place);
                        }
                    }
                }
                Look::Fixed { number, content } => {
                    for (i, b) in part.iter().enumerate() {
                        if *b != content.byte_at(i) {
                            break 'fields answer::refused(number, place);
                        }
                    }
                }
                Look::Tested(Ok(())) => {}
                Look::Tested(Err(refusal)) => {
                    break 'fields Err(refusal);
                }
            }
        }
        Ok(())
    }
}

// A record that is checked: its bytes, what record it is to be, and whether its bytes lie between the
// masks of that record, which then tell of its fields what they can.
#[derive(Clone, Copy)]
pub(crate) struct Checked<'a> {
    rec: &'a [u8; RECORD_BYTES],
    which: Record,
    dir: Direction,
    masked: bool,
    ghost known: { Known masked (start_of which) (start_of which + length (fields_of which)) dir rec.now },
}

impl<'a> Checked<'a> {
    // The masks are tested here, once for all that is asked of the record. Put in line, as `check_fields`
    // is, so that the parts travel in registers.
    #[inline(always)]
    pub(crate) fn new(rec: &'a [u8; RECORD_BYTES], which: Record, dir: Direction) -> Self
        ensures bytes { result.rec.now ≡ rec.now }
        ensures record { result.which ≡ which }
        ensures direction { result.dir ≡ dir }
        ensures masked { result.masked ≡ within (lows_of (fields_of which)) (highs_of dir (fields_of which)) rec.now }
    {
        Checked {
            rec,
            which,
            dir,
            masked: hold(rec, which, dir),
        }
    }

    // The record's type, and its segment if it has one.
    pub(crate) fn check_marks(self) -> Answer
        ensures { result ≡ first_broken (rules_of (marks self.entry.which) self.entry.dir self.entry.rec.now) }
    {
        let type_fits = self.check_fields(TYPE_FIELD, TYPE_FIELD + 1);
        if !shape_of(self.which).line.is_detail() {
            return type_fits;
        }
        type_fits.and(self.check_fields(SEGMENT_FIELD, SEGMENT_FIELD + 1))
    }

    // The fields of the record from the index `first` up to `past`.
    #[inline(always)]
    pub(crate) fn check_fields(self, first: usize, past: usize) -> Answer
        ensures { result ≡ first_broken (rules_of (slice first past (fields_of self.entry.which)) self.entry.dir self.entry.rec.now) }
    {
        let s = layout::span_of(self.which);
        let end = past.min(s.past - s.first);
        if end <= first {
            return Ok(());
        }
        walk(
            self.rec,
            s.first + first,
            s.first + end,
            self.dir,
            self.masked,
        )
    }
}
