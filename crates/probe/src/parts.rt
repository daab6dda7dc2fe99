// A file that arrives in parts, and its end wherever the payload declares it.
use super::payload::{Payload, Step};
use super::{payload, print};
use files::Incoming;
use std::io;

#[derive(Clone, Copy)]
enum Arrival<'a> {
    Part(&'a [u8]),
    End,
}

impl<'a> Step<'a> for Arrival<'a> {
    fn read(payload: &mut Payload<'a>) -> Option<Arrival<'a>> {
        match payload.byte()? {
            b'+' => payload.counted().map(Arrival::Part),
            b'.' => Some(Arrival::End),
            _ => None,
        }
    }
}

// Makes a call, and prints its answer.
fn take(rt: &impl Print, state: Incoming, arrival: Arrival) -> io::Result<Incoming> {
    match arrival {
        Arrival::Part(part) => {
            let taken = state.part(part);
            print::line(rt, taken.answer)?;
            Ok(taken.state)
        }
        Arrival::End => {
            let finished = state.end();
            print::line(rt, finished.outcome)?;
            Ok(finished.state)
        }
    }
}

// How many lines were accepted: one less than the number of the next one.
fn accepted_lines(state: Incoming) -> u64 {
    state.checker().next_line().0.saturating_sub(1)
}

// Calls go on behind a refusal, and behind the end. Of a payload that is no list of steps none is
// made.
pub(crate) fn take_parts(rt: &impl Print, payload: &[u8]) -> io::Result<()> {
    let behind = payload::take_steps(payload, Incoming::start(), |state, arrival| {
        take(rt, state, arrival)
    })?;
    match behind {
        Some(state) => println!(rt; "AT {}", accepted_lines(state)),
        None => print::malformed(rt),
    }
}
