// Reading and writing one record.
use super::print;
use fields::Fields;
use layout::names::Name;
use layout::{Direction, RECORD_BYTES, Record};
use std::io;

// How many digits a payload has for a number: as many as 64 bits may need, one more than are read at
// once.
pub(crate) const NUMBER_DIGITS: usize = 20;

// What the first of them counts.
const FIRST_DIGIT: u64 = 10000000000000000000;

// The number of 20 digits, where it fits.
fn number_of(text: &[u8; NUMBER_DIGITS]) -> Option<u64> {
    let first = digits::number_of(&text[..1])?;
    let behind = digits::number_of(&text[1..])?;
    first.checked_mul(FIRST_DIGIT)?.checked_add(behind)
}

// Whether a number is said to be not given, and may be.
fn is_absent(text: &[u8; NUMBER_DIGITS], which: Record, field: usize) -> bool {
    fields::may_be_absent(which, field) && text.iter().all(|byte| *byte == layout::BLANK)
}

// The fields of a record that bytes say: so many numbers, and the text.
pub(crate) fn fields_of(said: &[u8], which: Record, many: usize) -> Option<Fields> {
    let (said, text) = said.split_last_chunk::<RECORD_BYTES>()?;
    let (numbers, rest) = said.as_chunks::<NUMBER_DIGITS>();
    if numbers.len() != many || !rest.is_empty() {
        return None;
    }
    let mut fields = Fields {
        text: *text,
        ..Fields::none(which)
    };
    for (i, number) in numbers.iter().enumerate() {
        // In place where it is given, which it mostly is: `with_number` here would copy the fields each time.
        match (number_of(number), fields.numbers.get_mut(i)) {
            (Some(n), Some(place)) => *place = Some(n),
            (None, _) if is_absent(number, which, i) => fields = fields.not_given(Name(which, i)),
            _ => return None,
        }
    }
    Some(fields)
}

// A number, `_` for one that is not given, or `-` for bytes, of each field.
fn print_fields(rt: &impl Print, fields: Fields) -> io::Result<()> {
    let which = fields.which;
    for i in 0..fields::count(which) {
        if !fields::is_number(which, i) {
            rt.print(" -")?;
        } else if let Some(n) = fields.number_at(Name(which, i)) {
            print!(rt; " {n}")?;
        } else {
            rt.print(" _")?;
        }
    }
    Ok(())
}

pub(crate) fn read(
    rt: &impl Print,
    payload: &[u8],
    which: Record,
    dir: Direction,
) -> io::Result<()> {
    let fields = match fields::read_record(payload, which, dir) {
        Ok(fields) => fields,
        Err(refusal) => return print::line(rt, refusal),
    };
    rt.print("OK")?;
    print_fields(rt, fields)?;
    rt.print('\n')?;
    print::bytes(rt, &fields.text)
}

pub(crate) fn write(
    rt: &impl Print,
    payload: &[u8],
    which: Record,
    dir: Direction,
    out: &mut [u8],
) -> io::Result<()> {
    match fields_of(payload, which, fields::count(which)) {
        Some(asked) => print::memory(rt, fields::write_record(asked, dir, out), out),
        None => print::malformed(rt),
    }
}
