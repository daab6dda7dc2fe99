// Scripts: the writer's calls one after the other, and what is done to the output memory between
// them.
ghost use Rattle.probe.specs.inner.Payloads.{Shortens};

use super::payload::{Payload, Step};
use super::records::NUMBER_DIGITS;
use super::{header, payload, print, records};
use fields::Fields;
use layout::{RECORD_BYTES, Record};
use reply::Line;
use std::io;
use writer::{Payment, Writer, Written};

// A record of a call: its kind, its numbers and its text.
const MOST_NUMBERS: usize = 32;

const GIVEN_BYTES: usize = 1 + MOST_NUMBERS * NUMBER_DIGITS + RECORD_BYTES;

#[derive(Clone, Copy)]
enum Call {
    OpenFile(Fields),
    OpenBatch(Fields),
    Pay(Payment),
    CloseBatch(Fields),
    CloseFile(Fields),
}

#[derive(Clone, Copy)]
enum Order {
    Call(Call),
    // From here on so many bytes of the output memory are lent.
    Lend(usize),
    // The whole of it is overwritten.
    Overwrite(u8),
}

#[derive(Clone, Copy)]
struct Reached {
    state: Writer,
    lent: usize,
}

fn read_record(payload: &mut Payload) -> Option<Fields>
    ensures { Shortens payload.old payload.new result }
{
    let given = payload.array::<GIVEN_BYTES>()?;
    let which = header::record_of(given[0])?;
    records::fields_of(&given[1..], which, MOST_NUMBERS)
}

// Of a call with one record: whatever kind it is said to be, the call decides.
fn read_only(payload: &mut Payload, which: Record) -> Option<Fields>
    ensures { Shortens payload.old payload.new result }
{
    let only = read_record(payload)?;
    Some(Fields { which, ..only })
}

// A payment of one record is an O.
fn read_payment(count: u8, payload: &mut Payload) -> Option<Payment>
    ensures { Shortens payload.old payload.new result }
{
    let first = read_record(payload)?;
    match count {
        b'1' if first.which == Record::SegmentO => Some(Payment::of_one(first)),
        b'2' => Some(Payment::of_two(first, read_record(payload)?)),
        b'3' => Some(Payment::of_three(first, read_record(payload)?, read_record(payload)?)),
        _ => None,
    }
}

fn read_call(letter: u8, payload: &mut Payload) -> Option<Call>
    ensures { Shortens payload.old payload.new result }
{
    match (letter, payload.byte()?) {
        (b'O', b'1') => read_only(payload, Record::FileHeader).map(Call::OpenFile),
        (b'L', b'1') => read_only(payload, Record::BatchHeader).map(Call::OpenBatch),
        (b'P', count) => read_payment(count, payload).map(Call::Pay),
        (b'C', b'1') => read_only(payload, Record::BatchTrailer).map(Call::CloseBatch),
        (b'E', b'1') => read_only(payload, Record::FileTrailer).map(Call::CloseFile),
        _ => None,
    }
}

impl<'a> Step<'a> for Order {
    fn read(payload: &mut Payload<'a>) -> Option<Order> {
        match payload.byte()? {
            b'M' => payload.announced().map(Order::Lend),
            b'X' => payload.byte().map(Order::Overwrite),
            letter => read_call(letter, payload).map(Order::Call),
        }
    }
}

fn make_call(state: Writer, call: Call, out: &mut [u8]) -> Written {
    match call {
        Call::OpenFile(header) => state.open_file(header, out),
        Call::OpenBatch(header) => state.open_batch(header, out),
        Call::Pay(payment) => state.payment(payment, out),
        Call::CloseBatch(trailer) => state.close_batch(trailer, out),
        Call::CloseFile(trailer) => state.close_file(trailer, out),
    }
}

// Makes a call, and prints its answer. A closed file's totals stand in the line.
fn answer_call(rt: &impl Print, state: Writer, call: Call, out: &mut [u8]) -> io::Result<Writer> {
    let written = make_call(state, call, out);
    let state = written.state;
    let line = match (call, written.answer) {
        (Call::CloseFile(_), Ok(())) => Line::Counted(state.checker().closed()),
        (_, answer) => Line::from(answer),
    };
    print::line(rt, line)?;
    Ok(state)
}

fn take(rt: &impl Print, reached: Reached, order: Order, out: &mut [u8]) -> io::Result<Reached> {
    let Reached { state, lent } = reached;
    match order {
        Order::Call(call) => {
            let end = lent.min(out.len());
            let state = answer_call(rt, state, call, &mut out[..end])?;
            Ok(Reached { state, lent })
        }
        Order::Lend(lent) => Ok(Reached { state, lent }),
        Order::Overwrite(byte) => {
            out.fill(byte);
            Ok(reached)
        }
    }
}

// Of a payload that is no script nothing is done.
pub(crate) fn run(rt: &impl Print, payload: &[u8], out: &mut [u8]) -> io::Result<()> {
    let start = Reached {
        state: Writer::start(),
        lent: out.len(),
    };
    let behind = payload::take_steps(payload, start, |reached, order| {
        take(rt, reached, order, out)
    })?;
    match behind {
        Some(_) => print::bytes(rt, out),
        None => print::malformed(rt),
    }
}
