// The line machine: a checker's state by value, and its step over a line.
#![tactic(auto)]

mod boletos;
mod collections;
mod house;
mod limits;
mod lines;
mod moves;
mod order;
mod reading;
mod reads;
mod totals;

ghost use Rattle.std.specs.Prelude.{◌≡◌, cond};
ghost use Rattle.answer.specs.Rules.{no_line, first_broken};
ghost use Rattle.checker.specs.Line.{record_in, rules_of_line};
ghost use Rattle.checker.specs.Machine.{line_of, sound, step_of, start};
ghost use Rattle.checker.specs.inner.Steps.{Bounded, behind_by};

use answer::{Answer, LineNo, NO_LINE, Refusal, numbers};
use layout::{Batch, Direction, Phase, places};
pub use limits::{HEADER_BATCH, MOST_BATCHES, MOST_PAYMENTS, TRAILER_BATCH};
pub use order::{is_ended, record_at, records_of};
use reading::Reading;
pub use totals::{Live, Totals, Withdrawn};

pub const LINE_BYTES: usize = 242;

// What the closed batches count, with the file's own lines, and what the open batch counts. Line
// numbers are derived from these.
#[derive(Clone, Copy)]
pub struct Checker {
    phase: Phase,
    dir: Direction,
    batch: Option<Batch>,
    bank: u64,
    closed: Totals,
    current: Totals,
}

// State and answer side by side, and no result: a refused line leaves a state too.
#[derive(Clone, Copy)]
pub struct Stepped {
    pub state: Checker,
    pub answer: Answer,
}

impl Checker {
    // Accepted lines plus one.
    pub(crate) fn line_no(self) -> LineNo
        requires { Bounded self }
        ensures { result ≡ line_of self }
    {
        LineNo::behind(self.closed.records().plus(self.current.records()))
    }

    // Before any line.
    pub fn start() -> Checker
        ensures { result ≡ start }
    {
        Checker {
            phase: Phase::Start,
            dir: Direction::Remittance,
            batch: None,
            bank: 0,
            closed: Totals::none(),
            current: Totals::none(),
        }
    }

    // The state behind a line that is accepted; a refusal names no line yet. What the record is read
    // as is asked once, and handed on with its row.
    fn behind(self, line: &[u8]) -> Result<Checker, Refusal>
        requires { Bounded self }
        ensures { result ≡ behind_by (first_broken (rules_of_line self line.now)) self (record_in line.now) }
    {
        let rec = self.check_front(line)?;
        let which = self
            .line_is(rec)
            .ok_or(Refusal::at(numbers::TYPE, places::TYPE))?;
        let reading = Reading::of(which, rec);
        self.check_as(reading)?;
        Ok(self.after(reading))
    }

    // A line: a refused one leaves the state.
    pub fn step(self, line: &[u8]) -> Stepped
        ensures { result ≡ step_of self line.now }
    {
        if !self.is_sound() {
            return Stepped {
                state: self,
                answer: answer::refused(numbers::OUT_OF_TURN, 0),
            };
        }
        match self.behind(line) {
            Ok(state) => Stepped {
                state,
                answer: Ok(()),
            },
            Err(refusal) => Stepped {
                state: self,
                answer: answer::on_line(Err(refusal), self.line_no()),
            },
        }
    }

    // What was accepted last.
    pub fn phase(self) -> Phase
        ensures { result ≡ self.phase }
    {
        self.phase
    }

    // The direction that the file header gave.
    pub fn direction(self) -> Direction
        ensures { result ≡ self.dir }
    {
        self.dir
    }

    // The kind of the open batch; between batches there is none.
    pub fn batch(self) -> Option<Batch>
        ensures { result ≡ self.batch }
    {
        self.batch
    }

    // The bank that the file header gave.
    pub fn bank(self) -> u64
        ensures { result ≡ self.bank }
    {
        self.bank
    }

    // What the closed batches count, with the file's own lines.
    pub fn closed(self) -> Totals
        ensures { result ≡ self.closed }
    {
        self.closed
    }

    // What the open batch counts.
    pub fn current(self) -> Totals
        ensures { result ≡ self.current }
    {
        self.current
    }

    // The line that is next: accepted lines plus one.
    pub fn next_line(self) -> LineNo
        ensures { result ≡ cond (sound self) (line_of self) no_line }
    {
        if self.is_sound() {
            self.line_no()
        } else {
            NO_LINE
        }
    }
}
