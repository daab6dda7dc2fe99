// A file that arrives in parts of any length: a state by value, a call with a part, and the end.
ghost use Rattle.std.specs.Prelude.{◌≡◌, [], ◌++◌, ◌+◌, ◌<◌, ◌≤◌, length};
ghost use Rattle.checker.specs.Line.{line_bytes};
ghost use Rattle.files.specs.File.{lines_of, finish};
ghost use Rattle.files.specs.Parts.{bytes_in, state, arrive, arrived, answer_in, part_call, status_by, status_behind, concluded, end_call};
ghost use Rattle.files.specs.inner.Joined.{is_open};

use super::lines;
use super::unfinished::Unfinished;
use super::whole::{Outcome, finish, out_of_turn};
use answer::{Answer, Refusal};
use checker::{Checker, LINE_BYTES};

// Open for more; refused for good; or ended, and accepted.
#[derive(Clone, Copy)]
pub enum Status {
    Open,
    Refused(Refusal),
    Ended,
}

// The machine behind the lines that were accepted, the line that waits for the rest of it, and
// whether more may come.
#[derive(Clone, Copy)]
pub struct Incoming {
    machine: Checker,
    line: Unfinished,
    status: Status,
}

// What a part's call hands back: state and answer side by side, since a refused part moves the state.
#[derive(Clone, Copy)]
pub struct Taken {
    pub state: Incoming,
    pub answer: Answer,
}

// What the end's call hands back, the same way.
#[derive(Clone, Copy)]
pub struct Finished {
    pub state: Incoming,
    pub outcome: Outcome,
}

// Nothing waits.
fn at_line_end(machine: Checker, status: Status) -> Incoming
    ensures { result ≡ state machine [] status }
{
    Incoming {
        machine,
        line: Unfinished::none(),
        status,
    }
}

// Behind the answer of a part: more may come.
impl From<Answer> for Status {
    ghost from_gives = { λ answer status. status ≡ status_by answer };

    fn from(answer: Answer) -> Status {
        match answer {
            Ok(()) => Status::Open,
            Err(r) => Status::Refused(r),
        }
    }
}

// Behind the end: nothing more.
impl From<Outcome> for Status {
    ghost from_gives = { λ outcome status. status ≡ status_behind outcome };

    fn from(outcome: Outcome) -> Status {
        match outcome {
            Ok(_) => Status::Ended,
            Err(r) => Status::Refused(r),
        }
    }
}

// Less than a line: it waits, and is not looked into. Behind the file trailer nothing waits: `run`
// refuses it.
fn wait(machine: Checker, rest: &[u8]) -> Incoming
    requires { length rest.now < line_bytes }
    ensures { result ≡ arrive machine (lines_of rest.now) }
{
    if !checker::is_ended(machine.phase()) {
        return Incoming {
            machine,
            line: Unfinished::none().with(rest),
            status: Status::Open,
        };
    }
    let stepped = lines::run(machine, rest);
    at_line_end(stepped.state, Status::from(stepped.answer))
}

// Whole lines are checked where they lie; what is left of the bytes waits.
fn arrive(machine: Checker, bytes: &[u8]) -> Incoming
    ensures { result ≡ arrive machine (lines_of bytes.now) }
{
    let whole = bytes.len() - bytes.len() % LINE_BYTES;
    let stepped = lines::run(machine, &bytes[0..whole]);
    match stepped.answer {
        Ok(()) => wait(stepped.state, &bytes[whole..]),
        Err(r) => at_line_end(stepped.state, Status::Refused(r)),
    }
}

impl Incoming {
    // Before any byte.
    pub fn start() -> Incoming
        ensures { result ≡ arrived [] }
    {
        at_line_end(Checker::start(), Status::Open)
    }

    fn is_open(self) -> bool
        ensures { result ≡ is_open self.status }
    {
        matches!(self.status, Status::Open)
    }

    // A part that the line that waits has room for.
    fn begin(self, first: &[u8]) -> Incoming
        requires { length (bytes_in self.line) + length first.now ≤ line_bytes }
        ensures { result ≡ arrive self.machine (lines_of (bytes_in self.line ++ first.now)) }
    {
        let line = self.line.with(first);
        arrive(self.machine, line.bytes())
    }

    // A part, in an open state: first what goes to the line that waits, then the rest of it.
    fn take(self, part: &[u8]) -> Incoming
        ensures { result ≡ arrive self.machine (lines_of (bytes_in self.line ++ part.now)) }
    {
        let first = self.line.share(part.len());
        let begun = self.begin(&part[0..first]);
        if (part.len() == first) | !begun.is_open() {
            return begun;
        }
        arrive(begun.machine, &part[first..])
    }

    // What this state answers to a part.
    fn answer(self) -> Answer
        ensures { result ≡ answer_in self.status }
    {
        match self.status {
            Status::Open => Ok(()),
            Status::Refused(r) => Err(r),
            Status::Ended => Err(out_of_turn()),
        }
    }

    // A part of any length. What is refused or ended stays so.
    pub fn part(self, part: &[u8]) -> Taken
        ensures { result ≡ part_call self part.now }
    {
        if !self.is_open() {
            return Taken {
                state: self,
                answer: self.answer(),
            };
        }
        let state = self.take(part);
        Taken {
            state,
            answer: state.answer(),
        }
    }

    // The end of the input.
    pub fn end(self) -> Finished
        ensures { result ≡ end_call self }
    {
        match self.answer() {
            Ok(()) => self.conclude(),
            Err(r) => Finished {
                state: self,
                outcome: Err(r),
            },
        }
    }

    // The end, in an open state.
    fn conclude(self) -> Finished
        ensures { result ≡ concluded self.machine (finish self.machine (bytes_in self.line)) }
    {
        let outcome = finish(self.machine, self.line.bytes());
        Finished {
            state: at_line_end(self.machine, Status::from(outcome)),
            outcome,
        }
    }

    // The machine behind the lines that were accepted.
    pub fn checker(self) -> Checker
        ensures { result ≡ self.machine }
    {
        self.machine
    }

    // How many bytes of the next line wait.
    pub fn waiting(self) -> usize
        ensures { result ≡ length (bytes_in self.line) }
    {
        self.line.len()
    }

    // Whether more may come.
    pub fn status(self) -> Status
        ensures { result ≡ self.status }
    {
        self.status
    }
}
