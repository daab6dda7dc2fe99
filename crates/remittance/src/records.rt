// The records that the caller gives: blank fields, and over them numbers and texts by the fields'
// names. The writer fills the rest: fixed content, numbering, counts, sums, and the bank of each record
// behind the first. Texts that hold digits, a CNPJ number or a barcode, come at full width.
use answer::Cents;
use fields::Fields;
use layout::{Record, names};
use writer::Payment;

const BANK: u64 = 85;

// DDMMAAAA, and HHMMSS.
const TODAY: u64 = 16112026;

const NOW: u64 = 143000;

const REMITTANCE: u64 = 1;

// Whose identifier is a CNPJ number.
const CNPJ: u64 = 2;

// What a batch pays, and how: the service and the form.
const SUPPLIERS: u64 = 20;

const TRANSFER: u64 = 41;

const BOLETOS: u64 = 3;

const OTHER_BANKS: u64 = 31;

const BILLS: u64 = 29;

const WITH_A_CODE: u64 = 11;

const PAYEE_BANK: u64 = 1;

const PAYEE_BRANCH: u64 = 1234;

const PAYEE_ACCOUNT: u64 = 56789;

const CREDIT: Cents = Cents(10000);

// A boleto's amount is its nominal less the discount. The barcode has the nominal too, and the factor
// of the due date, 1661, and they have to agree.
const NOMINAL: Cents = Cents(125000);

const DISCOUNT: Cents = Cents(2500);

const BOLETO: Cents = Cents(NOMINAL.0 - DISCOUNT.0);

const DUE: u64 = 15122026;

const WATER: Cents = Cents(18742);

const WATER_DUE: u64 = 20112026;

pub(crate) fn file_header() -> Fields {
    Fields::blank(Record::FileHeader)
        .with_number(names::bank(Record::FileHeader), BANK)
        .with_number(names::FILE_HEADER_ID_TYPE, CNPJ)
        .with_text(names::FILE_HEADER_ID, b"12345678000195")
        .with_text(names::FILE_HEADER_COMPANY, b"CLINICA BOA VISTA LTDA")
        .with_text(names::FILE_HEADER_BANK_NAME, b"BANCO DO VALE")
        .with_number(names::FILE_HEADER_DIRECTION, REMITTANCE)
        .with_number(names::FILE_HEADER_DATE, TODAY)
        .with_number(names::FILE_HEADER_TIME, NOW)
}

fn batch_header(service: u64, form: u64) -> Fields {
    Fields::blank(Record::BatchHeader)
        .with_number(names::BATCH_HEADER_SERVICE, service)
        .with_number(names::BATCH_HEADER_FORM, form)
        .with_number(names::BATCH_HEADER_ID_TYPE, CNPJ)
        .with_text(names::BATCH_HEADER_ID, b"12345678000195")
        .with_text(names::BATCH_HEADER_COMPANY, b"CLINICA BOA VISTA LTDA")
        .with_text(names::BATCH_HEADER_CITY, b"BLUMENAU")
}

pub(crate) fn credit_header() -> Fields {
    batch_header(SUPPLIERS, TRANSFER)
}

pub(crate) fn boleto_header() -> Fields {
    batch_header(BOLETOS, OTHER_BANKS)
}

pub(crate) fn bill_header() -> Fields {
    batch_header(BILLS, WITH_A_CODE)
}

// Who is paid how much, and when.
fn segment_a() -> Fields {
    Fields::blank(Record::SegmentA)
        .with_number(names::A_PAYEE_BANK, PAYEE_BANK)
        .with_number(names::A_PAYEE_BRANCH, PAYEE_BRANCH)
        .with_number(names::A_PAYEE_ACCOUNT, PAYEE_ACCOUNT)
        .with_text(names::A_PAYEE, b"OXIGENIO DO VALE LTDA")
        .with_text(names::A_OUR_NUMBER, b"NF 000001")
        .with_number(names::A_DATE, TODAY)
        .with_cents(names::A_AMOUNT, CREDIT)
}

// Who the payee is.
fn segment_b() -> Fields {
    Fields::blank(Record::SegmentB)
        .with_number(names::B_ID_TYPE, CNPJ)
        .with_text(names::B_ID, b"23456789000195")
        .with_text(names::B_ADDRESS, b"RUA DAS PALMEIRAS, 77")
}

// The boleto, by its barcode.
fn segment_j() -> Fields {
    Fields::blank(Record::SegmentJ)
        .with_text(
            names::J_BARCODE,
            b"08598166100001250000104080001111100000000401",
        )
        .with_text(names::J_PAYEE, b"OXIGENIO DO VALE LTDA")
        .with_number(names::J_DUE, DUE)
        .with_cents(names::J_NOMINAL, NOMINAL)
        .with_cents(names::J_DISCOUNT, DISCOUNT)
        .with_number(names::J_DATE, TODAY)
        .with_cents(names::J_AMOUNT, BOLETO)
        .with_text(names::J_OUR_NUMBER, b"NF 000002")
}

// Who pays whom. There is no guarantor, and an identifier is digits all the same.
fn segment_j52() -> Fields {
    Fields::blank(Record::SegmentJ52)
        .with_number(names::J52_PAYER_ID_TYPE, CNPJ)
        .with_text(names::J52_PAYER_ID, b"012345678000195")
        .with_text(names::J52_PAYER, b"CLINICA BOA VISTA LTDA")
        .with_number(names::J52_PAYEE_ID_TYPE, CNPJ)
        .with_text(names::J52_PAYEE_ID, b"023456789000195")
        .with_text(names::J52_PAYEE, b"OXIGENIO DO VALE LTDA")
        .with_text(names::J52_GUARANTOR_ID, b"000000000000000")
}

// The water bill, by its collection code: 44 digits, which `boleto::collection::line_to_code` gives for
// the 48 that people type.
fn segment_o() -> Fields {
    Fields::blank(Record::SegmentO)
        .with_text(
            names::O_CODE,
            b"82670000001874212342026112000000045678900001",
        )
        .with_text(names::O_PAYEE, b"AGUAS DO VALE SA")
        .with_number(names::O_DUE, WATER_DUE)
        .with_number(names::O_DATE, TODAY)
        .with_cents(names::O_AMOUNT, WATER)
        .with_text(names::O_OUR_NUMBER, b"CONTA 000001")
}

pub(crate) fn credit() -> Payment {
    Payment::of_two(segment_a(), segment_b())
}

pub(crate) fn boleto() -> Payment {
    Payment::of_two(segment_j(), segment_j52())
}

pub(crate) fn bill() -> Payment {
    Payment::of_one(segment_o())
}
