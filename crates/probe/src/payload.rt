// What a payload says, read from its front, and payloads that are lists of steps.
ghost use Rattle.std.specs.Prelude.{◌≡◌, ◌+◌, length, IfSome};
ghost use Rattle.probe.specs.inner.Payloads.{Shortens};

use super::header;
use std::io;

// What is left of it.
#[derive(Clone, Copy)]
pub(crate) struct Payload<'a>(&'a [u8]);

impl<'a> Payload<'a> {
    // Its first bytes, as many as asked.
    pub(crate) fn array<const N: usize>(&mut self) -> Option<&'a [u8; N]>
        ensures { IfSome result (λ _. length self.new.0.now + N ≡ length self.old.0.now) }
    {
        let (array, rest) = self.0.split_first_chunk()?;
        self.0 = rest;
        Some(array)
    }

    pub(crate) fn byte(&mut self) -> Option<u8>
        ensures { Shortens self.old self.new result }
    {
        let (byte, rest) = self.0.split_first()?;
        self.0 = rest;
        Some(*byte)
    }

    // The number that six digits announce.
    pub(crate) fn announced(&mut self) -> Option<usize>
        ensures { Shortens self.old self.new result }
    {
        header::announced(self.array::<{ header::DIGITS }>()?)
    }

    // The bytes that six digits before them count.
    pub(crate) fn counted(&mut self) -> Option<&'a [u8]>
        ensures { Shortens self.old self.new result }
    {
        let count = self.announced()?;
        let (bytes, rest) = self.0.split_at_checked(count)?;
        self.0 = rest;
        Some(bytes)
    }
}

pub(crate) trait Step<'a>: Sized + Drop {
    // The step that a payload begins with.
    fn read(payload: &mut Payload<'a>) -> Option<Self>
        ensures { Shortens payload.old payload.new result };
}

// Whether a payload is a list of steps.
fn are_steps<'a, S: Step<'a>>(payload: &'a [u8]) -> bool {
    let mut rest = Payload(payload);
    // Nothing is counted: each step takes bytes from the front.
    while !rest.0.is_empty() {
        if S::read(&mut rest).is_none() {
            return false;
        }
    }
    true
}

// Takes the steps of a payload, each behind the state that the ones before it left. Of a payload
// that is no list of steps it takes none.
pub(crate) fn take_steps<'a, S: Step<'a>, T: Drop, F: FnMut(T, S) -> io::Result<T>>(
    payload: &'a [u8],
    start: T,
    mut take: F,
) -> io::Result<Option<T>>
    requires { F.IsAlwaysCallable take }
{
    if !are_steps::<S>(payload) {
        return Ok(None);
    }
    let mut state = start;
    let mut rest = Payload(payload);
    while let Some(step) = S::read(&mut rest) {
        state = take(state, step)?;
    }
    Ok(Some(state))
}
