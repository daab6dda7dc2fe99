// The numbers that the desk refuses with, as the paper's table has them; docs/NUMBERS.md says what
// each means. They are no enum: `answer::test` and `answer::refused` promise an answer for every
// number, and the definitions compare numbers as the paper does.
pub const WRONG_LENGTH: u8 = 1;

pub const UNFINISHED: u8 = 2;

pub const BEHIND_END: u8 = 3;

pub const NOT_PRINTABLE: u8 = 4;

pub const LINE_END: u8 = 5;

pub const TYPE: u8 = 6;

pub const BANK: u8 = 7;

pub const NON_DIGIT: u8 = 8;

pub const BATCH: u8 = 9;

pub const DETAIL: u8 = 10;

pub const SEGMENT: u8 = 11;

pub const FIXED: u8 = 12;

pub const TEXT: u8 = 13;

pub const DOMAIN: u8 = 14;

pub const DATE: u8 = 15;

pub const GENERAL_CHECK: u8 = 16;

pub const DUE_DATE: u8 = 17;

pub const CENTS: u8 = 18;

pub const AMOUNT: u8 = 19;

pub const TOO_MANY: u8 = 20;

pub const COUNT: u8 = 21;

pub const SUM: u8 = 22;

pub const FILE_SUM: u8 = 23;

pub const TOO_LONG: u8 = 25;

pub const REGISTRATION: u8 = 26;

pub const STRING_LENGTH: u8 = 40;

pub const STRING_DIGIT: u8 = 41;

pub const FIELD_CHECK: u8 = 42;

pub const CURRENCY: u8 = 43;

pub const STRING_CHECK: u8 = 44;

pub const NO_ROOM: u8 = 50;

pub const OUT_OF_TURN: u8 = 51;

pub const PRODUCT: u8 = 52;

pub const IDENTIFIER: u8 = 53;

pub const BLOCK_CHECK: u8 = 54;

pub const CODE_CHECK: u8 = 55;
