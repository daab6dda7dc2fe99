// Records with the least that the rules ask of a caller: a direction, dates, identifiers of digits, a
// service with its form, and the amount. All other fields stay blank or 0.
use answer::Cents;
use fields::Fields;
use layout::{Record, names};

const REMITTANCE: u64 = 1;

// DDMMAAAA
const TODAY: u64 = 16112026;

// Movements: a payment is live, or withdrawn.
pub(crate) const LIVE: u64 = 0;

pub(crate) const WITHDRAWN: u64 = 9;

const SUPPLIERS: u64 = 20;

const TRANSFER: u64 = 41;

pub(crate) fn file_header() -> Fields {
    Fields::blank(Record::FileHeader)
        .with_text(names::FILE_HEADER_ID, b"00000000000000")
        .with_number(names::FILE_HEADER_DIRECTION, REMITTANCE)
        .with_number(names::FILE_HEADER_DATE, TODAY)
}

pub(crate) fn batch_header() -> Fields {
    Fields::blank(Record::BatchHeader)
        .with_number(names::BATCH_HEADER_SERVICE, SUPPLIERS)
        .with_number(names::BATCH_HEADER_FORM, TRANSFER)
        .with_text(names::BATCH_HEADER_ID, b"00000000000000")
}

pub(crate) fn credit(movement: u64, cents: Cents) -> Fields {
    Fields::blank(Record::SegmentA)
        .with_number(names::A_MOVEMENT, movement)
        .with_number(names::A_DATE, TODAY)
        .with_cents(names::A_AMOUNT, cents)
}

pub(crate) fn payee() -> Fields {
    Fields::blank(Record::SegmentB).with_text(names::B_ID, b"00000000000000")
}
