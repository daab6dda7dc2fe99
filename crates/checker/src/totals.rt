// What lines count: batches and records, and payments with the sum of their amounts, the live ones
// and the withdrawn ones apart.
ghost use Rattle.std.specs.Prelude.{◌≡◌, true, not, cond, ◌+◌, ◌-◌, ◌≤◌, ◌<◌, ◌^◌, length, take, drop};
ghost use Rattle.answer.specs.Sums.{capped};
ghost use Rattle.digits.specs.Numbers.{value};
ghost use Rattle.layout.specs.Table.{record_bytes};
ghost use Rattle.layout.specs.Records.{amount_field};
ghost use Rattle.checker.specs.Totals.{no_payments, none, add_tally, add, batch_count, record_count, payment_count, cent_sum, opens, cents_in, withdraws, only, tallied, counts_by, amount_digits};
ghost use Rattle.checker.specs.inner.Steps.{FitTally, FitSum};

use answer::{Cents, RecordCount};
use layout::{Amount, LineType, RECORD_BYTES, Shape, places};

// Payments, and the sum of their amounts.
#[derive(Clone, Copy)]
pub struct Tally {
    pub(crate) payments: u64,
    pub(crate) cents: Cents,
}

// Those of one sort of payments, the live ones or the withdrawn ones, each a type of its own.
#[derive(Clone, Copy)]
pub struct Payments<const WITHDRAWN: bool>(pub(crate) Tally);

pub type Live = Payments<false>;

pub type Withdrawn = Payments<true>;

#[derive(Clone, Copy)]
pub struct Totals {
    pub(crate) batches: u64,
    pub(crate) records: RecordCount,
    pub(crate) live: Live,
    pub(crate) withdrawn: Withdrawn,
}

const AMOUNT_DIGITS: usize = 15;

// The movement that withdraws a payment.
const WITHDRAWAL: u8 = b'9';

// An amount, from this place on.
pub(crate) fn amount(rec: &[u8; RECORD_BYTES], place: usize) -> Cents
    requires { (1 ≤ place) × (place + amount_digits ≤ record_bytes) }
    ensures { (result.0 ≡ value (take amount_digits (drop (place - 1) rec.now))) × (result.0 < 10 ^ amount_digits) }
{
    Cents(digits::value(&rec[place - 1..place - 1 + AMOUNT_DIGITS]))
}

impl<const WITHDRAWN: bool> Payments<WITHDRAWN> {
    // How many they are.
    pub fn payments(self) -> u64
        ensures { result ≡ self.entry.0.payments }
    {
        self.0.payments
    }

    // The sum of their amounts.
    pub fn cents(self) -> Cents
        ensures { result ≡ self.entry.0.cents }
    {
        self.0.cents
    }

    fn none() -> Payments<WITHDRAWN>
        ensures { result.0 ≡ no_payments }
    {
        Payments(Tally {
            payments: 0,
            cents: Cents(0),
        })
    }

    fn plus(self, more: Payments<WITHDRAWN>) -> Payments<WITHDRAWN>
        requires { FitTally self.0 more.0 }
        ensures { result.0 ≡ add_tally self.entry.0 more.entry.0 }
    {
        Payments(Tally {
            payments: self.0.payments + more.0.payments,
            cents: self.0.cents.plus(more.0.cents),
        })
    }

    // All of these, if they are of this sort, or none.
    fn of(tally: Tally, withdrawn: bool) -> Payments<WITHDRAWN>
        ensures { result.0 ≡ only (cond WITHDRAWN withdrawn (not withdrawn)) tally }
    {
        if withdrawn == WITHDRAWN {
            Payments(tally)
        } else {
            Payments::none()
        }
    }
}

impl Totals {
    // The batches.
    pub fn batches(self) -> u64
        ensures { result ≡ batch_count self }
    {
        self.batches
    }

    // The records, with headers and trailers.
    pub fn records(self) -> RecordCount
        ensures { result.0 ≡ record_count self }
    {
        self.records
    }

    // The live payments.
    pub fn live(self) -> Live
        ensures { result ≡ self.live }
    {
        self.live
    }

    // The withdrawn payments.
    pub fn withdrawn(self) -> Withdrawn
        ensures { result ≡ self.withdrawn }
    {
        self.withdrawn
    }

    // The payments, live and withdrawn together. A sum that does not fit 64 bits stays at the largest
    // number; no file's does.
    pub fn payments(self) -> u64
        ensures { result ≡ capped (payment_count self) }
    {
        self.live
            .payments()
            .saturating_add(self.withdrawn.payments())
    }

    // The sum of all their amounts, capped like that.
    pub fn cents(self) -> Cents
        ensures { result.0 ≡ capped (cent_sum self) }
    {
        self.live.cents().plus(self.withdrawn.cents())
    }

    pub(crate) fn none() -> Totals
        ensures { result ≡ none }
    {
        Totals {
            batches: 0,
            records: RecordCount(0),
            live: Live::none(),
            withdrawn: Withdrawn::none(),
        }
    }

    pub(crate) fn plus(self, more: Totals) -> Totals
        requires { FitSum self more }
        ensures { result ≡ add self more }
    {
        Totals {
            batches: self.batches + more.batches,
            records: self.records.plus(more.records),
            live: self.live.plus(more.live),
            withdrawn: self.withdrawn.plus(more.withdrawn),
        }
    }
}

fn batches_by(line: LineType) -> u64
    ensures { result ≡ opens line }
{
    u64::from(line == LineType::BatchFirst)
}

// The payments that a line begins: one, if it has an amount.
pub(crate) fn payments_by(amount: Option<Amount>) -> u64
    ensures { (result ≡ length (amount_field amount)) × (result ≤ 1) }
{
    u64::from(amount.is_some())
}

fn cents_by(kind: Option<Amount>, rec: &[u8; RECORD_BYTES]) -> Cents
    ensures { result.0 ≡ cents_in (amount_field kind) rec.now }
{
    match kind {
        None => Cents(0),
        Some(Amount::OfA) => amount(rec, places::CREDIT_AMOUNT),
        Some(Amount::OfJ) => amount(rec, places::BOLETO_AMOUNT),
        Some(Amount::OfO) => amount(rec, places::COLLECTION_AMOUNT),
    }
}

// The payment that a line begins, with its amount, whatever its movement.
fn tally_by(amount: Option<Amount>, rec: &[u8; RECORD_BYTES]) -> Tally
    ensures { result ≡ tallied true (amount_field amount) rec.now }
{
    Tally {
        payments: payments_by(amount),
        cents: cents_by(amount, rec),
    }
}

// Movement 9 withdraws a payment.
fn withdraws(rec: &[u8; RECORD_BYTES]) -> bool
    ensures { result ≡ withdraws rec.now }
{
    rec[places::MOVEMENT - 1] == WITHDRAWAL
}

// What a line counts, by its row.
pub(crate) fn counted(shape: Shape, rec: &[u8; RECORD_BYTES]) -> Totals
    ensures { result ≡ counts_by shape rec.now }
{
    let tally = tally_by(shape.amount, rec);
    let withdrawn = withdraws(rec);
    Totals {
        batches: batches_by(shape.line),
        records: RecordCount(1),
        live: Live::of(tally, withdrawn),
        withdrawn: Withdrawn::of(tally, withdrawn),
    }
}
