// Writing: the record that fields make, checked by the reader's rules and then put into the output.
ghost use Rattle.std.specs.Prelude.{◌≡◌, ◌∷◌, [], ◌++◌, ◌≤◌, T as Holds, length, drop};
ghost use Rattle.answer.specs.Rules.{first_broken};
ghost use Rattle.answer.specs.Output.{Writes};
ghost use Rattle.layout.specs.inner.Lent.{kind_of, may_be};
ghost use Rattle.layout.specs.Table.{record_bytes};
ghost use Rattle.layout.specs.Kinds.{means};
ghost use Rattle.layout.specs.Record.{record_rules, byte_rule};
ghost use Rattle.fields.specs.Values.{number_bytes, rendered, record_of, made_of, not_made, Puts};

use super::Fields;
use super::table::field_at;
use answer::{Answer, numbers};
use layout::{BLANK, Content, Direction, Fill, RECORD_BYTES, Record, places};

// A number over its field's part of the output: its digits, or blanks where it is not given.
fn write_given(m: Option<u64>, part: &mut [u8])
    ensures { part.new ≡ number_bytes (length part.old) m }
{
    match m {
        Some(n) => digits::write_number(n, part),
        None => Content::Run(BLANK).write(part),
    }
}

// One field, over its part of the output: the caller's number or text, or the fixed content.
fn write_field(k: u8, m: Option<u64>, text: &[u8], part: &mut [u8])
    requires { (length text.now ≡ length part.old) × Holds (may_be (kind_of k) (length part.old)) }
    ensures { part.new ≡ rendered (means (kind_of k)).held m text.now }
{
    match layout::fill_of(k) {
        Fill::Number => write_given(m, part),
        Fill::Text => layout::copy(text, part),
        Fill::Fixed(content) => content.write(part),
    }
}

// The record over the output's first bytes: each field's part is lent to the field writer.
fn render(v: &Fields, out: &mut [u8])
    requires { record_bytes ≤ length out.old }
    ensures { out.new ≡ record_of v.now.which v.now ++ drop record_bytes out.old }
{
    let s = layout::span_of(v.which);
    for f in s.first..s.past {
        let e = field_at(f);
        let start = e.from - 1;
        let end = e.to;
        let m = v.numbers[f - s.first];
        write_field(e.kind, m, &v.text[start..end], &mut out[start..end]);
    }
}

// The bytes of the record, right or not.
fn bytes_of(v: &Fields) -> [u8; RECORD_BYTES]
    ensures { result ≡ record_of v.now.which v.now }
{
    let mut bytes = [0; RECORD_BYTES];
    render(v, &mut bytes);
    bytes
}

// A record that fields make: whether it is right, and if it is, its bytes. There is no other way to a
// right one than to have it checked. The answer stands inside, and not a result around: a refused
// record is a value too, that `none` makes, `answer` shows and no call writes.
#[derive(Clone, Copy)]
pub struct Made {
    answer: Answer,
    fields: Fields,
    bytes: [u8; RECORD_BYTES],
}

// The record that fields make, checked.
pub fn make_record(v: Fields, dir: Direction) -> Made
    ensures { result ≡ made_of v.which dir v }
{
    let all = bytes_of(&v);
    let answer = walk::check_record(&all, v.which, dir);
    let bytes = match answer {
        Ok(()) => all,
        Err(_) => [0; RECORD_BYTES],
    };
    Made {
        answer,
        fields: v,
        bytes,
    }
}

// The byte check of the record that fields make.
pub fn check_bytes(v: Fields) -> Answer
    ensures { result ≡ first_broken (byte_rule (record_of v.which v) ∷ []) }
{
    walk::check_bytes(&bytes_of(&v))
}

impl Made {
    // What `make_record` makes of a Z of which nothing is given: refused at its first byte that is not
    // printable. It stands where no record is made yet.
    pub fn none() -> Made
        ensures { result ≡ not_made }
    {
        Made {
            answer: answer::refused(numbers::NOT_PRINTABLE, places::SEGMENT + 1),
            fields: Fields::none(Record::SegmentZ),
            bytes: [0; RECORD_BYTES],
        }
    }

    // The check's answer.
    pub fn answer(self) -> Answer
        ensures { result ≡ self.answer }
    {
        self.answer
    }

    // The record's bytes; zeros where it is refused.
    pub fn bytes(self) -> [u8; RECORD_BYTES]
        ensures { result ≡ self.bytes }
    {
        self.bytes
    }

    // Puts the record over the output's first bytes, if it is right and there is room.
    pub fn put(self, out: &mut [u8]) -> Answer
        ensures { Puts self out.old result out.new }
    {
        self.answer?;
        answer::room(RECORD_BYTES, out)?;
        render(&self.fields, out);
        Ok(())
    }
}

// Writes a record, if no rule is broken and there is room.
pub fn write_record(v: Fields, dir: Direction, out: &mut [u8]) -> Answer
    ensures { Writes (record_rules v.which dir (record_of v.which v)) record_bytes (record_of v.which v) out.old result out.new }
{
    make_record(v, dir).put(out)
}
