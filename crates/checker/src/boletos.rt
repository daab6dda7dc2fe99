// The house rules of J: general check, due date, cents and amount.
ghost use Rattle.std.specs.Prelude.{◌≡◌, ◌<◌, ◌^◌};
ghost use Rattle.answer.specs.Rules.{first_broken};
ghost use Rattle.layout.specs.Table.{nominal_field};
ghost use Rattle.checker.specs.Totals.{amount_digits};
ghost use Rattle.checker.specs.Line.{cents, due_fits, cents_fit, amount_fits, boleto_rules};

use super::totals::amount;
use answer::{Answer, Cents, numbers};
use calendar::Date;
use layout::{RECORD_BYTES, places};

// A barcode that leaves the cents to the record.
const NOT_STATED: Cents = Cents(0);

// A factor other than 0 is the due date's.
fn due_fits(rec: &[u8; RECORD_BYTES]) -> bool
    ensures { result ≡ due_fits rec.now }
{
    let bar = &rec[places::BARCODE_FROM - 1..places::BARCODE_TO];
    let factor = digits::value(&bar[places::FACTOR_FROM - 1..places::FACTOR_TO]);
    let due = Date::from(digits::value(&rec[places::DUE_FROM - 1..places::DUE_TO]));
    due.fits_factor(factor)
}

// Cents other than 0 equal the nominal.
fn cents_fit(rec: &[u8; RECORD_BYTES], nominal: Cents) -> bool
    requires { nominal.0 ≡ cents nominal_field rec.now }
    ensures { result ≡ cents_fit rec.now }
{
    let bar = &rec[places::BARCODE_FROM - 1..places::BARCODE_TO];
    let coded = Cents(digits::value(&bar[places::CENTS_FROM - 1..places::CENTS_TO]));
    (coded == NOT_STATED) | (coded == nominal)
}

// The amount is nominal less discount plus fine.
fn amount_fits(rec: &[u8; RECORD_BYTES], nominal: Cents) -> bool
    requires { (nominal.0 ≡ cents nominal_field rec.now) × (nominal.0 < 10 ^ amount_digits) }
    ensures { result ≡ amount_fits rec.now }
{
    let paid = amount(rec, places::BOLETO_AMOUNT).plus(amount(rec, places::DISCOUNT));
    paid == nominal.plus(amount(rec, places::FINE))
}

// All four, in the paper's order.
pub(crate) fn check_boleto(rec: &[u8; RECORD_BYTES]) -> Answer
    ensures { result ≡ first_broken (boleto_rules rec.now) }
{
    let general = boleto::is_sealed(&rec[places::BARCODE_FROM - 1..places::BARCODE_TO]);
    let check = answer::test(numbers::GENERAL_CHECK, places::GENERAL_CHECK, general);
    let due = answer::test(numbers::DUE_DATE, places::FACTOR, due_fits(rec));
    let nominal = amount(rec, places::NOMINAL);
    let cents = answer::test(numbers::CENTS, places::CENTS, cents_fit(rec, nominal));
    let paid = amount_fits(rec, nominal);
    let amount = answer::test(numbers::AMOUNT, places::BOLETO_AMOUNT, paid);
    check.and(due.and(cents.and(amount)))
}
