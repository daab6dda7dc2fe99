// Places that rules over several fields or lines ask.

// All lines.
pub const BANK_FROM: usize = 1;

pub const BANK_TO: usize = 3;

pub const BATCH_FROM: usize = 4;

pub const BATCH_TO: usize = 7;

pub const TYPE: usize = 8;

pub const CR: usize = 241;

pub const LF: usize = 242;

// All details.
pub const NUMBER_FROM: usize = 9;

pub const NUMBER_TO: usize = 13;

pub const SEGMENT: usize = 14;

// Details that have an amount.
pub const MOVEMENT: usize = 15;

// Headers.
pub const SERVICE_FROM: usize = 10;

pub const SERVICE_TO: usize = 11;

pub const FORM_TO: usize = 13;

pub const DIRECTION: usize = 143;

// Registration numbers: both headers and B; and J52.
pub const HOLDER_ID_FROM: usize = 19;

pub const HOLDER_ID_TO: usize = 32;

pub const PAYER_ID_FROM: usize = 21;

pub const PAYER_ID_TO: usize = 35;

pub const PAYEE_ID_FROM: usize = 77;

pub const PAYEE_ID_TO: usize = 91;

pub const GUARANTOR_ID_FROM: usize = 133;

pub const GUARANTOR_ID_TO: usize = 147;

// A.
pub const CREDIT_AMOUNT: usize = 120;

// J: the barcode, with its general check, factor and cents; the due date; and the amounts.
pub const BARCODE_FROM: usize = 18;

pub const BARCODE_TO: usize = 61;

pub const GENERAL_CHECK: usize = 22;

pub const FACTOR: usize = 23;

pub const CENTS: usize = 27;

pub const DUE_FROM: usize = 92;

pub const DUE_TO: usize = 99;

pub const NOMINAL: usize = 100;

pub const DISCOUNT: usize = 115;

pub const FINE: usize = 130;

pub const BOLETO_AMOUNT: usize = 153;

// O: the collection code, and the amount.
pub const CODE_FROM: usize = 18;

pub const CODE_TO: usize = 61;

pub const COLLECTION_AMOUNT: usize = 108;

// In a barcode: factor and cents.
pub const FACTOR_FROM: usize = 6;

pub const FACTOR_TO: usize = 9;

pub const CENTS_FROM: usize = 10;

pub const CENTS_TO: usize = 19;

// Trailers: records of the batch or batches of the file; the batch's sum; the file's records.
pub const FIRST_COUNT_FROM: usize = 18;

pub const FIRST_COUNT_TO: usize = 23;

pub const SUM_FROM: usize = 24;

pub const SUM_TO: usize = 41;

pub const RECORDS_FROM: usize = 24;

pub const RECORDS_TO: usize = 29;
