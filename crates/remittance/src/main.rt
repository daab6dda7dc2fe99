// Writes a small remittance, a batch of credits, one of boletos and one of bills with one payment each,
// reads it back as the bank would, and prints the reader's line: `OK batches records payments cents
// payments cents`, the live payments before the withdrawn ones. If a call is refused, its line is
// printed instead: `NO number line place`.
#![tactic(auto)]

mod records;

use answer::Refusal;
use checker::LINE_BYTES;
use fields::Fields;
use layout::Record;
use reply::Line;
use std::io;
use writer::{Payment, Writer, Written};

// The headers and trailers of the file and of three batches, two payments of two records, and one of
// one.
const LINES: usize = 13;

const FILE_BYTES: usize = LINES * LINE_BYTES;

// The state behind a call, or its refusal.
fn state_behind(call: Written) -> Result<Writer, Refusal> {
    call.answer.map(|()| call.state)
}

// A batch with one payment. The writer counts and sums, so nothing is left to say in its trailer.
fn write_batch(
    state: Writer,
    header: Fields,
    payment: Payment,
    out: &mut [u8],
) -> Result<Writer, Refusal> {
    let state = state_behind(state.open_batch(header, out))?;
    let state = state_behind(state.payment(payment, out))?;
    state_behind(state.close_batch(Fields::blank(Record::BatchTrailer), out))
}

// Each call takes the state by value, and hands back the next state and an answer.
fn write_file(out: &mut [u8]) -> Result<Writer, Refusal> {
    let state = state_behind(Writer::start().open_file(records::file_header(), out))?;
    let state = write_batch(state, records::credit_header(), records::credit(), out)?;
    let state = write_batch(state, records::boleto_header(), records::boleto(), out)?;
    let state = write_batch(state, records::bill_header(), records::bill(), out)?;
    state_behind(state.close_file(Fields::blank(Record::FileTrailer), out))
}

fn main(rt: HostRuntime) -> io::Result<()> {
    let mut file = [0u8; FILE_BYTES];
    let outcome = write_file(&mut file).and_then(|_| files::check_file(&file));
    rt.println(Line::from(outcome))
}
