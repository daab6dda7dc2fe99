// A whole file, and lines one call at a time.
use super::payload::{Payload, Step};
use super::{payload, print};
use checker::Checker;
use std::io;

// The bytes of a call.
#[derive(Clone, Copy)]
struct Call<'a>(&'a [u8]);

impl<'a> Step<'a> for Call<'a> {
    fn read(payload: &mut Payload<'a>) -> Option<Call<'a>> {
        payload.counted().map(Call)
    }
}

pub(crate) fn check(rt: &impl Print, payload: &[u8]) -> io::Result<()> {
    print::line(rt, files::check_file(payload))
}

// A payload that is no list of calls makes none.
pub(crate) fn step_lines(rt: &impl Print, payload: &[u8]) -> io::Result<()> {
    let behind = payload::take_steps(payload, Checker::start(), |state: Checker, Call(line)| {
        let stepped = state.step(line);
        print::line(rt, stepped.answer)?;
        Ok(stepped.state)
    })?;
    match behind {
        Some(state) => print::line(rt, files::end(state)),
        None => print::malformed(rt),
    }
}
