// One record of a call: filled, checked by the reader's rules, and put into the output.
ghost use Rattle.std.specs.Prelude.{◌≡◌, ◌++◌, ◌≤◌, length, drop, Ok};
ghost use Rattle.checker.specs.Line.{line_bytes, line_from};
ghost use Rattle.writer.specs.inner.Steps.{kind_answer, MayTry, Tries, line_with};

use answer::{Answer, Refusal, numbers};
use checker::{Checker, LINE_BYTES};
use fields::{Fields, Made};
use layout::{RECORD_BYTES, places};

// The state behind what is accepted, a record or a payment's records, and what is made of it.
#[derive(Clone, Copy)]
pub(crate) struct Tried<M> {
    pub(crate) checker: Checker,
    pub(crate) made: M,
}

// The reader's 4, 11 and fields: of a record that is expected they are the check's, of another 4 and 11.
fn check(expected: bool, made: Made, v: Fields) -> Answer
    ensures { result ≡ kind_answer expected made v v.which }
{
    if expected {
        return made.answer();
    }
    fields::check_bytes(v)?;
    answer::refused(numbers::SEGMENT, places::SEGMENT)
}

// The line of a record that is made.
fn line_of(made: Made) -> [u8; LINE_BYTES]
    ensures { result ≡ line_from made.bytes }
{
    let bytes = made.bytes();
    let mut line = [0u8; LINE_BYTES];
    layout::copy(&bytes, &mut line[0..RECORD_BYTES]);
    line[places::CR - 1] = b'\r';
    line[places::LF - 1] = b'\n';
    line
}

// A record in a state: nothing is written yet. The checker reads the line as any other: there is no
// other way to the state behind it. What it refuses then is what the house asks.
pub(crate) fn try_record(m: Checker, expected: bool, v: Fields) -> Result<Tried<Made>, Refusal>
    requires { MayTry expected v.which m }
    ensures { Tries expected m v result }
{
    let fields = filling::fill(m, v);
    let made = fields::make_record(fields, m.direction());
    answer::on_line(check(expected, made, fields), m.next_line())?;
    let stepped = m.step(&line_of(made));
    stepped.answer?;
    Ok(Tried {
        checker: stepped.state,
        made,
    })
}

// A record that is right and its line end, over the first bytes of this part of the output.
pub(crate) fn put_line(made: Made, part: &mut [u8])
    requires answer_value { made.answer ≡ Ok tt }
    requires line_bytes_in_bounds { line_bytes ≤ length part.old }
    ensures { part.new ≡ line_with made ++ drop line_bytes part.old }
{
    // A record that is right is put wherever there is room.
    made.put(part).unwrap();
    part[places::CR - 1] = b'\r';
    part[places::LF - 1] = b'\n';
}
