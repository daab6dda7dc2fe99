// Writes a batch up to two of the writer's limits and past them, and reads the file back. It pays up to
// 1,000 cents below the file's limit, half of it withdrawn; is refused 1,000 more, live or withdrawn
// (number 23), and pays 999; withdraws payments of 0 cents up to the 10,000th, and is refused another,
// live or withdrawn (number 20). It prints a line for each refusal, and then the reader's.
#![tactic(auto)]

mod records;

use answer::Cents;
use checker::LINE_BYTES;
use fields::Fields;
use layout::Record;
use records::{LIVE, WITHDRAWN};
use reply::Line;
use std::io;
use writer::{Payment, Writer, Written};

// As many payments as a batch may have, of two records each; the headers and trailers of batch and
// file.
const LINES: usize = 20004;

const FILE_BYTES: usize = LINES * LINE_BYTES;

// The most cents that a payment's 15 digits hold, and how often they are paid, and then withdrawn:
// 10^18 - 1,000 in all.
const MOST_CENTS: Cents = Cents(999999999999999);

const LARGE_PAYMENTS: u64 = 500;

// The next payment: what no file has room for, and one cent less.
const TOO_MANY_CENTS: Cents = Cents(1000);

const LAST_CENTS: Cents = Cents(999);

// What is left, with no cents, up to the 10,000th.
const EMPTY_PAYMENTS: u64 = 8999;

const NO_CENTS: Cents = Cents(0);

// A file as it is written, into lent memory. Each refusal is printed.
#[derive(Drop)]
struct Desk<'a, R> {
    rt: &'a R,
    state: Writer,
    out: &'a mut [u8],
}

impl<R: Print> Desk<'_, R> {
    // Goes on behind a call. A refused one left state and output as they were.
    fn go_on(&mut self, call: Written) -> io::Result<()> {
        if let Err(refusal) = call.answer {
            self.rt.println(Line::from(refusal))?;
        }
        self.state = call.state;
        Ok(())
    }

    fn open(&mut self) -> io::Result<()> {
        let opened = self.state.open_file(records::file_header(), self.out);
        self.go_on(opened)?;
        let opened = self.state.open_batch(records::batch_header(), self.out);
        self.go_on(opened)
    }

    fn pay(&mut self, movement: u64, cents: Cents) -> io::Result<()> {
        let payment = Payment::of_two(records::credit(movement, cents), records::payee());
        let paid = self.state.payment(payment, self.out);
        self.go_on(paid)
    }

    fn pay_often(&mut self, times: u64, movement: u64, cents: Cents) -> io::Result<()> {
        for _ in 0..times {
            self.pay(movement, cents)?;
        }
        Ok(())
    }

    // A live payment, and a withdrawn one.
    fn pay_either(&mut self, cents: Cents) -> io::Result<()> {
        self.pay(LIVE, cents)?;
        self.pay(WITHDRAWN, cents)
    }

    fn pay_to_the_cent(&mut self) -> io::Result<()> {
        self.pay_often(LARGE_PAYMENTS, LIVE, MOST_CENTS)?;
        self.pay_often(LARGE_PAYMENTS, WITHDRAWN, MOST_CENTS)?;
        self.pay_either(TOO_MANY_CENTS)?;
        self.pay(LIVE, LAST_CENTS)
    }

    fn pay_to_the_last(&mut self) -> io::Result<()> {
        self.pay_often(EMPTY_PAYMENTS, WITHDRAWN, NO_CENTS)?;
        self.pay_either(NO_CENTS)
    }

    fn close(&mut self) -> io::Result<()> {
        let closed = self
            .state
            .close_batch(Fields::blank(Record::BatchTrailer), self.out);
        self.go_on(closed)?;
        let closed = self
            .state
            .close_file(Fields::blank(Record::FileTrailer), self.out);
        self.go_on(closed)
    }
}

fn write_file(rt: &impl Print, out: &mut [u8]) -> io::Result<()> {
    let mut desk = Desk {
        rt,
        state: Writer::start(),
        out,
    };
    desk.open()?;
    desk.pay_to_the_cent()?;
    desk.pay_to_the_last()?;
    desk.close()
}

fn write_and_read(rt: &impl Print, file: &mut [u8; FILE_BYTES]) -> io::Result<()> {
    write_file(rt, file)?;
    rt.println(Line::from(files::check_file(file)))
}

fn main(rt: HostRuntime) -> io::Result<()> {
    let mut file = [0u8; FILE_BYTES];
    write_and_read(&rt, &mut file)
}
