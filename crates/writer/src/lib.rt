// The writer: calls that open a file, open a batch, pay, close the batch and close the file, into
// output memory that the caller lends.
#![tactic(auto)]

mod given;
mod payments;
mod records;
mod turns;

ghost use Rattle.std.specs.Prelude.{◌≡◌, true, ◌∷◌, [], ◌+◌, leb, Ok};
ghost use Rattle.answer.specs.Rules.{first_broken};
ghost use Rattle.answer.specs.Output.{room};
ghost use Rattle.writer.specs.Given.{records_in, open_file, open_batch, pay, close_batch, close_file};
ghost use Rattle.writer.specs.Outcome.{new_writer, Wrote};
ghost use Rattle.writer.specs.inner.Steps.{turn_of, handed_back, WroteIn, one_rules, payment_rules, MayTry, MayPay};

use answer::{Answer, RecordCount, Refusal, numbers};
use checker::{Checker, LINE_BYTES};
use fields::Fields;
pub use given::Payment;
use layout::Record;
use payments::{check_sum, put_payment, try_payment};
use records::{put_line, try_record};
use turns::{batch_limits, check_turn, payment_limits, test_turn, turns_at};

// The checker's state behind what was written, and the place that was reached in the output.
#[derive(Clone, Copy)]
pub struct Writer {
    checker: Checker,
    cursor: usize,
}

// State and answer side by side, and no result: a refused call leaves a state too.
#[derive(Clone, Copy)]
pub struct Written {
    pub state: Writer,
    pub answer: Answer,
}

// Whether so many bytes fit behind a place. No sum is made that could wrap.
fn has_room(at: usize, bytes: usize, len: usize) -> bool
    ensures { result ≡ leb (at + bytes) len }
{
    at <= len && bytes <= len - at
}

impl Writer {
    // Before any call.
    pub fn start() -> Writer
        ensures { result ≡ new_writer }
    {
        Writer {
            checker: Checker::start(),
            cursor: 0,
        }
    }

    // The checker's state, with what was counted so far.
    pub fn checker(self) -> Checker
        ensures { result ≡ self.checker }
    {
        self.checker
    }

    // How many bytes of the output are written.
    pub fn cursor(self) -> usize
        ensures { result ≡ self.cursor }
    {
        self.cursor
    }

    // Room for so many bytes behind the cursor.
    fn room(self, bytes: usize, out: &[u8]) -> Answer
        ensures { result ≡ first_broken (room (self.cursor + bytes) out.now ∷ []) }
    {
        answer::test(numbers::NO_ROOM, 0, has_room(self.cursor, bytes, out.len()))
    }

    // The state behind a call, or where the call is refused the one before it; and the answer. What the
    // five calls share is this, `write_one` and `write_payment`: each has its turn and its records.
    fn hand_back(self, behind: Result<Writer, Refusal>) -> Written
        ensures { result ≡ handed_back self behind }
    {
        match behind {
            Ok(state) => Written {
                state,
                answer: Ok(()),
            },
            Err(refusal) => Written {
                state: self,
                answer: Err(refusal),
            },
        }
    }

    // A call that writes one record, a header or a trailer: its turn and limits, which are asked, the
    // record, then room.
    fn write_one(self, asked: Answer, v: Fields, out: &mut [u8]) -> Result<Writer, Refusal>
        requires { turn_of self.checker asked ≡ Ok tt → MayTry true v.which self.checker }
        ensures { WroteIn (turn_of self.checker asked) (one_rules self v out.old) self (v ∷ []) out.old out.new (handed_back self result) }
    {
        check_turn(self.checker, asked)?;
        let tried = try_record(self.checker, true, v)?;
        answer::on_line(self.room(LINE_BYTES, out), self.checker.next_line())?;
        put_line(tried.made, &mut out[self.cursor..]);
        Ok(Writer {
            checker: tried.checker,
            cursor: self.cursor + LINE_BYTES,
        })
    }

    // The file header, which gives the file its bank and its direction.
    pub fn open_file(self, v: Fields, out: &mut [u8]) -> Written
        ensures { Wrote self (open_file v) out.old out.new result }
    {
        let asked = test_turn(turns_at(self.checker.phase()).header);
        self.hand_back(self.write_one(asked, v.taken_as(Record::FileHeader), out))
    }

    // A batch header, whose service and form give the batch its kind.
    pub fn open_batch(self, v: Fields, out: &mut [u8]) -> Written
        ensures { Wrote self (open_batch v) out.old out.new result }
    {
        let given = v.taken_as(Record::BatchHeader);
        let turn = test_turn(turns_at(self.checker.phase()).batch);
        let asked = turn.and(batch_limits(self.checker, given));
        self.hand_back(self.write_one(asked, given, out))
    }

    // A payment: its turn and limits, which are asked, its records, then the sum of all payments so far,
    // then room.
    fn write_payment(self, asked: Answer, p: Payment, out: &mut [u8]) -> Result<Writer, Refusal>
        requires { turn_of self.checker asked ≡ Ok tt → MayPay self.checker }
        ensures { WroteIn (turn_of self.checker asked) (payment_rules self p out.old) self (records_in p) out.old out.new (handed_back self result) }
    {
        check_turn(self.checker, asked)?;
        let tried = try_payment(self.checker, p)?;
        let count = p.records();
        let bytes = LINE_BYTES * count;
        let last = check_sum(self.checker, p).and(self.room(bytes, out));
        answer::on_line(last, self.checker.next_line())?;
        put_payment(&tried.made[..count], &mut out[self.cursor..]);
        Ok(Writer {
            checker: tried.checker,
            cursor: self.cursor + bytes,
        })
    }

    // A payment's records: one, which is an O, or two; and in a return perhaps a Z behind them.
    pub fn payment(self, p: Payment, out: &mut [u8]) -> Written
        ensures { Wrote self (pay p) out.old out.new result }
    {
        let details = RecordCount(p.records() as u64);
        let turn = test_turn(turns_at(self.checker.phase()).payment);
        let asked = turn.and(payment_limits(self.checker, details));
        self.hand_back(self.write_payment(asked, p, out))
    }

    // The batch trailer: the writer counts and sums, the caller gives the other fields.
    pub fn close_batch(self, v: Fields, out: &mut [u8]) -> Written
        ensures { Wrote self (close_batch v) out.old out.new result }
    {
        let asked = test_turn(turns_at(self.checker.phase()).trailer);
        self.hand_back(self.write_one(asked, v.taken_as(Record::BatchTrailer), out))
    }

    // The file trailer. Behind it every call is out of turn.
    pub fn close_file(self, v: Fields, out: &mut [u8]) -> Written
        ensures { Wrote self (close_file v) out.old out.new result }
    {
        let asked = test_turn(turns_at(self.checker.phase()).end);
        self.hand_back(self.write_one(asked, v.taken_as(Record::FileTrailer), out))
    }
}
