// The fields' names: a field's record, its index among the fields of that record, and behind it its
// places. Fixed content has no name: nobody gives it.
ghost use Rattle.std.specs.Prelude.{◌≡◌};
ghost use Rattle.layout.specs.Table.{bank_field, batch_field, number_field};
ghost use Rattle.layout.specs.Names.{name_of};

use super::Record;

#[derive(Clone, Copy)]
pub struct Name(pub Record, pub usize);

// All lines
const BANK: usize = 0; // 1-3

const BATCH_NUMBER: usize = 1; // 4-7

// All details
const DETAIL_NUMBER: usize = 3; // 9-13

// The bank, in a record. These three are public names, of what all lines or all details have.
pub fn bank(of: Record) -> Name
    ensures { result ≡ name_of of bank_field }
{
    Name(of, BANK)
}

// The batch's number, in a record.
pub fn batch_number(of: Record) -> Name
    ensures { result ≡ name_of of batch_field }
{
    Name(of, BATCH_NUMBER)
}

// A detail's number, in a detail.
pub fn detail_number(of: Record) -> Name
    ensures { result ≡ name_of of number_field }
{
    Name(of, DETAIL_NUMBER)
}

// File header
pub const FILE_HEADER_ID_TYPE: Name = Name(Record::FileHeader, 4); // 18

pub const FILE_HEADER_ID: Name = Name(Record::FileHeader, 5); // 19-32

pub const FILE_HEADER_AGREEMENT: Name = Name(Record::FileHeader, 6); // 33-52

pub const FILE_HEADER_BRANCH: Name = Name(Record::FileHeader, 7); // 53-57

pub const FILE_HEADER_BRANCH_CHECK: Name = Name(Record::FileHeader, 8); // 58

pub const FILE_HEADER_ACCOUNT: Name = Name(Record::FileHeader, 9); // 59-70

pub const FILE_HEADER_ACCOUNT_CHECK: Name = Name(Record::FileHeader, 10); // 71

pub const FILE_HEADER_BRANCH_ACCOUNT_CHECK: Name = Name(Record::FileHeader, 11); // 72

pub const FILE_HEADER_COMPANY: Name = Name(Record::FileHeader, 12); // 73-102

pub const FILE_HEADER_BANK_NAME: Name = Name(Record::FileHeader, 13); // 103-132

pub const FILE_HEADER_DIRECTION: Name = Name(Record::FileHeader, 15); // 143

pub const FILE_HEADER_DATE: Name = Name(Record::FileHeader, 16); // 144-151

pub const FILE_HEADER_TIME: Name = Name(Record::FileHeader, 17); // 152-157

pub const FILE_HEADER_SEQUENCE: Name = Name(Record::FileHeader, 18); // 158-163

pub const FILE_HEADER_LAYOUT: Name = Name(Record::FileHeader, 19); // 164-166

pub const FILE_HEADER_DENSITY: Name = Name(Record::FileHeader, 20); // 167-171

pub const FILE_HEADER_RESERVED: Name = Name(Record::FileHeader, 21); // 172-240

// Batch header
pub const BATCH_HEADER_SERVICE: Name = Name(Record::BatchHeader, 4); // 10-11

pub const BATCH_HEADER_FORM: Name = Name(Record::BatchHeader, 5); // 12-13

pub const BATCH_HEADER_LAYOUT: Name = Name(Record::BatchHeader, 6); // 14-16

pub const BATCH_HEADER_ID_TYPE: Name = Name(Record::BatchHeader, 8); // 18

pub const BATCH_HEADER_ID: Name = Name(Record::BatchHeader, 9); // 19-32

pub const BATCH_HEADER_AGREEMENT: Name = Name(Record::BatchHeader, 10); // 33-52

pub const BATCH_HEADER_BRANCH: Name = Name(Record::BatchHeader, 11); // 53-57

pub const BATCH_HEADER_BRANCH_CHECK: Name = Name(Record::BatchHeader, 12); // 58

pub const BATCH_HEADER_ACCOUNT: Name = Name(Record::BatchHeader, 13); // 59-70

pub const BATCH_HEADER_ACCOUNT_CHECK: Name = Name(Record::BatchHeader, 14); // 71

pub const BATCH_HEADER_BRANCH_ACCOUNT_CHECK: Name = Name(Record::BatchHeader, 15); // 72

pub const BATCH_HEADER_COMPANY: Name = Name(Record::BatchHeader, 16); // 73-102

pub const BATCH_HEADER_MESSAGE: Name = Name(Record::BatchHeader, 17); // 103-142

pub const BATCH_HEADER_STREET: Name = Name(Record::BatchHeader, 18); // 143-172

pub const BATCH_HEADER_STREET_NUMBER: Name = Name(Record::BatchHeader, 19); // 173-177

pub const BATCH_HEADER_COMPLEMENT: Name = Name(Record::BatchHeader, 20); // 178-192

pub const BATCH_HEADER_CITY: Name = Name(Record::BatchHeader, 21); // 193-212

pub const BATCH_HEADER_POSTCODE: Name = Name(Record::BatchHeader, 22); // 213-230

pub const BATCH_HEADER_OCCURRENCES: Name = Name(Record::BatchHeader, 23); // 231-240

// A
pub const A_MOVEMENT: Name = Name(Record::SegmentA, 5); // 15

pub const A_INSTRUCTION: Name = Name(Record::SegmentA, 6); // 16-17

pub const A_CLEARING: Name = Name(Record::SegmentA, 7); // 18-20

pub const A_PAYEE_BANK: Name = Name(Record::SegmentA, 8); // 21-23

pub const A_PAYEE_BRANCH: Name = Name(Record::SegmentA, 9); // 24-28

pub const A_PAYEE_BRANCH_CHECK: Name = Name(Record::SegmentA, 10); // 29

pub const A_PAYEE_ACCOUNT: Name = Name(Record::SegmentA, 11); // 30-41

pub const A_PAYEE_ACCOUNT_CHECK: Name = Name(Record::SegmentA, 12); // 42

pub const A_PAYEE_BRANCH_ACCOUNT_CHECK: Name = Name(Record::SegmentA, 13); // 43

pub const A_PAYEE: Name = Name(Record::SegmentA, 14); // 44-73

pub const A_OUR_NUMBER: Name = Name(Record::SegmentA, 15); // 74-93

pub const A_DATE: Name = Name(Record::SegmentA, 16); // 94-101

pub const A_CURRENCY: Name = Name(Record::SegmentA, 17); // 102-104

pub const A_CURRENCY_QUANTITY: Name = Name(Record::SegmentA, 18); // 105-119

pub const A_AMOUNT: Name = Name(Record::SegmentA, 19); // 120-134

pub const A_BANK_NUMBER: Name = Name(Record::SegmentA, 20); // 135-154

pub const A_PAID_DATE: Name = Name(Record::SegmentA, 21); // 155-162

pub const A_PAID_AMOUNT: Name = Name(Record::SegmentA, 22); // 163-177

pub const A_INFORMATION: Name = Name(Record::SegmentA, 23); // 178-230

pub const A_OCCURRENCES: Name = Name(Record::SegmentA, 24); // 231-240

// B
pub const B_INITIATION: Name = Name(Record::SegmentB, 5); // 15-17

pub const B_ID_TYPE: Name = Name(Record::SegmentB, 6); // 18

pub const B_ID: Name = Name(Record::SegmentB, 7); // 19-32

pub const B_ADDRESS: Name = Name(Record::SegmentB, 8); // 33-240

// J
pub const J_MOVEMENT: Name = Name(Record::SegmentJ, 5); // 15

pub const J_INSTRUCTION: Name = Name(Record::SegmentJ, 6); // 16-17

pub const J_BARCODE: Name = Name(Record::SegmentJ, 7); // 18-61

pub const J_PAYEE: Name = Name(Record::SegmentJ, 8); // 62-91

pub const J_DUE: Name = Name(Record::SegmentJ, 9); // 92-99

pub const J_NOMINAL: Name = Name(Record::SegmentJ, 10); // 100-114

pub const J_DISCOUNT: Name = Name(Record::SegmentJ, 11); // 115-129

pub const J_FINE: Name = Name(Record::SegmentJ, 12); // 130-144

pub const J_DATE: Name = Name(Record::SegmentJ, 13); // 145-152

pub const J_AMOUNT: Name = Name(Record::SegmentJ, 14); // 153-167

pub const J_OUR_NUMBER: Name = Name(Record::SegmentJ, 16); // 183-202

pub const J_BANK_NUMBER: Name = Name(Record::SegmentJ, 17); // 203-222

pub const J_OCCURRENCES: Name = Name(Record::SegmentJ, 20); // 231-240

// J52
pub const J52_INSTRUCTION: Name = Name(Record::SegmentJ52, 6); // 16-17

pub const J52_PAYER_ID_TYPE: Name = Name(Record::SegmentJ52, 8); // 20

pub const J52_PAYER_ID: Name = Name(Record::SegmentJ52, 9); // 21-35

pub const J52_PAYER: Name = Name(Record::SegmentJ52, 10); // 36-75

pub const J52_PAYEE_ID_TYPE: Name = Name(Record::SegmentJ52, 11); // 76

pub const J52_PAYEE_ID: Name = Name(Record::SegmentJ52, 12); // 77-91

pub const J52_PAYEE: Name = Name(Record::SegmentJ52, 13); // 92-131

pub const J52_GUARANTOR_ID_TYPE: Name = Name(Record::SegmentJ52, 14); // 132

pub const J52_GUARANTOR_ID: Name = Name(Record::SegmentJ52, 15); // 133-147

pub const J52_GUARANTOR: Name = Name(Record::SegmentJ52, 16); // 148-187

// Z
pub const Z_AUTHENTICATION: Name = Name(Record::SegmentZ, 5); // 15-240

// Batch trailer
pub const BATCH_TRAILER_RECORDS: Name = Name(Record::BatchTrailer, 4); // 18-23

pub const BATCH_TRAILER_SUM: Name = Name(Record::BatchTrailer, 5); // 24-41

pub const BATCH_TRAILER_CURRENCY_SUM: Name = Name(Record::BatchTrailer, 6); // 42-59

pub const BATCH_TRAILER_DEBIT_NOTICE: Name = Name(Record::BatchTrailer, 7); // 60-65

pub const BATCH_TRAILER_OCCURRENCES: Name = Name(Record::BatchTrailer, 9); // 231-240

// File trailer
pub const FILE_TRAILER_BATCHES: Name = Name(Record::FileTrailer, 4); // 18-23

pub const FILE_TRAILER_RECORDS: Name = Name(Record::FileTrailer, 5); // 24-29

pub const FILE_TRAILER_ACCOUNTS: Name = Name(Record::FileTrailer, 6); // 30-35

// O
pub const O_MOVEMENT: Name = Name(Record::SegmentO, 5); // 15

pub const O_INSTRUCTION: Name = Name(Record::SegmentO, 6); // 16-17

pub const O_CODE: Name = Name(Record::SegmentO, 7); // 18-61

pub const O_PAYEE: Name = Name(Record::SegmentO, 8); // 62-91

pub const O_DUE: Name = Name(Record::SegmentO, 9); // 92-99

pub const O_DATE: Name = Name(Record::SegmentO, 10); // 100-107

pub const O_AMOUNT: Name = Name(Record::SegmentO, 11); // 108-122

pub const O_OUR_NUMBER: Name = Name(Record::SegmentO, 12); // 123-142

pub const O_BANK_NUMBER: Name = Name(Record::SegmentO, 13); // 143-162

pub const O_OCCURRENCES: Name = Name(Record::SegmentO, 15); // 231-240
