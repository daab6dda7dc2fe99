// Drives the library for tests: reads requests from standard input until it ends, and answers each.
//
// A request is a header of 16 bytes and a payload. The reply is a line, `OK` or `NO number line
// place`, and for calls with output memory the whole of that memory and LF. A malformed request is
// answered `NO 0 0 0` alone; a request that is cut short ends the program.
//
// B and D turn a barcode and a digit line into each other, b and d a collection code and its line.
//
// C reads a record; its `OK` is followed by a number, or `_` for one that is not given, or `-`, for
// each field, and by a line with the text. W writes a record: the payload has 20 digits for each
// field, or 20 blanks for a number that is not given, where it may be, and then the text. F checks a
// whole file, and its line is the program's. L steps over lines: the payload has calls, each six
// digits for a length and so many bytes; there is a line for each call, and then one for the end, as
// of F. T takes a file in parts: the payload has steps, each a part, `+` and then as a call of L, or
// the end, `.`; there is a line for each step, of an end as of F, and then `AT` and how many lines
// were accepted.
//
// P writes a file: the payload is a script of the writer's calls. A call is a letter (O opens the
// file, L a batch, P pays, C closes the batch, E the file), a digit for the number of its records (1,
// of a payment 1, which is an O, 2 or 3), and the records, each its kind, 32 numbers as of W and 240
// bytes of text. Two more steps are no calls: M and six digits, from where on calls are lent so many
// bytes of the output memory, or all it has; X and a byte, with which the whole of it is overwritten.
// There is a line for each call, of an accepted E as of F, and then the output memory.
#![tactic(auto)]

mod header;
mod parts;
mod payload;
mod print;
mod records;
mod scripts;
mod whole;

use boleto::collection;
use header::{Header, Op};
use std::io;
use std::io::{ErrorKind, Read};

// The longest payload that a header can announce, and the most that a payload and output memory may
// have.
const MOST_ANNOUNCED: usize = 999999;

const MOST_BYTES: usize = 900000;

const HEADER_BYTES: usize = 16;

// What output memory holds before a call.
const UNTOUCHED: u8 = 170;

// Makes the call, and writes its answer and the output memory. The calls have other arguments each, so
// that a table of functions would have to make them alike first.
fn call(rt: &impl Print, op: Op, payload: &[u8], out: &mut [u8]) -> io::Result<()> {
    out.fill(UNTOUCHED);
    match op {
        Op::BarcodeToLine => print::memory(rt, boleto::barcode_to_line(payload, out), out),
        Op::LineToBarcode => print::memory(rt, boleto::line_to_barcode(payload, out), out),
        Op::CodeToLine => print::memory(rt, collection::code_to_line(payload, out), out),
        Op::LineToCode => print::memory(rt, collection::line_to_code(payload, out), out),
        Op::ReadRecord(which, dir) => records::read(rt, payload, which, dir),
        Op::WriteRecord(which, dir) => records::write(rt, payload, which, dir, out),
        Op::CheckFile => whole::check(rt, payload),
        Op::StepLines => whole::step_lines(rt, payload),
        Op::TakeParts => parts::take_parts(rt, payload),
        Op::Script => scripts::run(rt, payload, out),
    }
}

// Fills the buffer; false where the input ends before it is full.
fn filled(source: &mut impl Read, buf: &mut [u8]) -> io::Result<bool> {
    match source.read_exact(buf) {
        Ok(()) => Ok(true),
        Err(e) if e.kind() == ErrorKind::UnexpectedEof => Ok(false),
        Err(e) => Err(e),
    }
}

// Answers one request; false where the input ends before it is complete.
fn serve(
    rt: &impl Print,
    source: &mut impl Read,
    payload: &mut [u8; MOST_ANNOUNCED],
    out: &mut [u8; MOST_BYTES],
) -> io::Result<bool> {
    let mut head = [0; HEADER_BYTES];
    if !filled(source, &mut head)? {
        return Ok(false);
    }
    let Header { op, room, length } = header::parse(&head);
    if !filled(source, &mut payload[..length])? {
        return Ok(false);
    }
    match op {
        Some(op) => call(rt, op, &payload[..length], &mut out[..room])?,
        None => print::malformed(rt)?,
    }
    Ok(true)
}

// A proved loop has to end, and nothing says that the input does. So it counts its turns, up to a
// number that no run uses up.
fn serve_all(
    rt: &impl Print,
    source: &mut impl Read,
    payload: &mut [u8; MOST_ANNOUNCED],
    out: &mut [u8; MOST_BYTES],
) -> io::Result<()> {
    for _ in 0..u64::MAX {
        if !serve(rt, source, payload, out)? {
            break;
        }
    }
    Ok(())
}

fn main(rt: HostRuntime) -> io::Result<()> {
    let mut payload = [0; MOST_ANNOUNCED];
    let mut out = [0; MOST_BYTES];
    serve_all(&rt, &mut rt.stdin(), &mut payload, &mut out)
}
