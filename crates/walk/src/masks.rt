// The masks of the records: a lowest and a highest byte for each place. Where a record's bytes lie
// between them, every field is right whose rule is one for each byte alone, and so is a number that
// may be not given or a registration number, whose mask is that of digits: a record with blanks or
// letters for it is looked at field by field.
ghost use Rattle.std.specs.Prelude.{◌≡◌};
ghost use Rattle.layout.specs.Table.{fields_of};
ghost use Rattle.walk.specs.inner.Masks.{within, lows_of, highs_of};

use layout::{Direction, RECORD_BYTES, Record};

const FILE_HEADER_LOW: [u8; RECORD_BYTES] =
    *b"00000000         000000000000000                    00000 000000000000                                                                        1              00000000000000                                                                     ";

const FILE_HEADER_HIGH: [u8; RECORD_BYTES] =
    *b"99999990         299999999999999~~~~~~~~~~~~~~~~~~~~99999~999999999999~~~~~~~~~~~~~~~~~~~~~~~~~~~~~~~~~~~~~~~~~~~~~~~~~~~~~~~~~~~~~~          2~~~~~~~~~~~~~~99999999999999~~~~~~~~~~~~~~~~~~~~~~~~~~~~~~~~~~~~~~~~~~~~~~~~~~~~~~~~~~~~~~~~~~~~~";

const BATCH_HEADER_LOW: [u8; RECORD_BYTES] =
    *b"00000001C    000 000000000000000                    00000 000000000000                                                                                                                                                                          ";

const BATCH_HEADER_HIGH: [u8; RECORD_BYTES] =
    *b"99999991C~~~~999 299999999999999~~~~~~~~~~~~~~~~~~~~99999~999999999999~~~~~~~~~~~~~~~~~~~~~~~~~~~~~~~~~~~~~~~~~~~~~~~~~~~~~~~~~~~~~~~~~~~~~~~~~~~~~~~~~~~~~~~~~~~~~~~~~~~~~~~~~~~~~~~~~~~~~~~~~~~~~~~~~~~~~~~~~~~~~~~~~~~~~~~~~~~~~~~~          ";

const BATCH_HEADER_HIGH_RETURN: [u8; RECORD_BYTES] =
    *b"99999991C~~~~999 299999999999999~~~~~~~~~~~~~~~~~~~~99999~999999999999~~~~~~~~~~~~~~~~~~~~~~~~~~~~~~~~~~~~~~~~~~~~~~~~~~~~~~~~~~~~~~~~~~~~~~~~~~~~~~~~~~~~~~~~~~~~~~~~~~~~~~~~~~~~~~~~~~~~~~~~~~~~~~~~~~~~~~~~~~~~~~~~~~~~~~~~~~~~~~~~~~~~~~~~~~";

const A_LOW: [u8; RECORD_BYTES] =
    *b"0000000300000A 0000000000000 000000000000                                                               000000000000000000000000000000                    00000000000000000000000                                                               ";

const A_HIGH: [u8; RECORD_BYTES] =
    *b"9999999399999A~9999999999999~999999999999~~~~~~~~~~~~~~~~~~~~~~~~~~~~~~~~~~~~~~~~~~~~~~~~~~~~~~~~~~~~~~~999999999999999999999999999999~~~~~~~~~~~~~~~~~~~~99999999999999999999999~~~~~~~~~~~~~~~~~~~~~~~~~~~~~~~~~~~~~~~~~~~~~~~~~~~~~          ";

const A_HIGH_RETURN: [u8; RECORD_BYTES] =
    *b"9999999399999A~9999999999999~999999999999~~~~~~~~~~~~~~~~~~~~~~~~~~~~~~~~~~~~~~~~~~~~~~~~~~~~~~~~~~~~~~~999999999999999999999999999999~~~~~~~~~~~~~~~~~~~~99999999999999999999999~~~~~~~~~~~~~~~~~~~~~~~~~~~~~~~~~~~~~~~~~~~~~~~~~~~~~~~~~~~~~~~";

const B_LOW: [u8; RECORD_BYTES] =
    *b"0000000300000B   000000000000000                                                                                                                                                                                                                ";

const B_HIGH: [u8; RECORD_BYTES] =
    *b"9999999399999B~~~299999999999999~~~~~~~~~~~~~~~~~~~~~~~~~~~~~~~~~~~~~~~~~~~~~~~~~~~~~~~~~~~~~~~~~~~~~~~~~~~~~~~~~~~~~~~~~~~~~~~~~~~~~~~~~~~~~~~~~~~~~~~~~~~~~~~~~~~~~~~~~~~~~~~~~~~~~~~~~~~~~~~~~~~~~~~~~~~~~~~~~~~~~~~~~~~~~~~~~~~~~~~~~~~~~~~~";

const J_LOW: [u8; RECORD_BYTES] =
    *b"0000000300000J 0000000000000000000000000000000000000000000000                                      000000000000000000000000000000000000000000000        000000000000000000000000000000                                        09                ";

const J_HIGH: [u8; RECORD_BYTES] =
    *b"9999999399999J~9999999999999999999999999999999999999999999999~~~~~~~~~~~~~~~~~~~~~~~~~~~~~~~~~~~~~~999999999999999999999999999999999999999999999~~~~~~~~999999999999999000000000000000~~~~~~~~~~~~~~~~~~~~~~~~~~~~~~~~~~~~~~~~09                ";

const J_HIGH_RETURN: [u8; RECORD_BYTES] =
    *b"9999999399999J~9999999999999999999999999999999999999999999999~~~~~~~~~~~~~~~~~~~~~~~~~~~~~~~~~~~~~~999999999999999999999999999999999999999999999~~~~~~~~999999999999999000000000000000~~~~~~~~~~~~~~~~~~~~~~~~~~~~~~~~~~~~~~~~09      ~~~~~~~~~~";

const J52_LOW: [u8; RECORD_BYTES] =
    *b"0000000300000J 00520000000000000000                                        0000000000000000                                        0000000000000000                                                                                             ";

const J52_HIGH: [u8; RECORD_BYTES] =
    *b"9999999399999J 99522999999999999999~~~~~~~~~~~~~~~~~~~~~~~~~~~~~~~~~~~~~~~~2999999999999999~~~~~~~~~~~~~~~~~~~~~~~~~~~~~~~~~~~~~~~~2999999999999999~~~~~~~~~~~~~~~~~~~~~~~~~~~~~~~~~~~~~~~~                                                     ";

const Z_LOW: [u8; RECORD_BYTES] =
    *b"0000000300000Z                                                                                                                                                                                                                                  ";

const Z_HIGH: [u8; RECORD_BYTES] =
    *b"9999999399999Z~~~~~~~~~~~~~~~~~~~~~~~~~~~~~~~~~~~~~~~~~~~~~~~~~~~~~~~~~~~~~~~~~~~~~~~~~~~~~~~~~~~~~~~~~~~~~~~~~~~~~~~~~~~~~~~~~~~~~~~~~~~~~~~~~~~~~~~~~~~~~~~~~~~~~~~~~~~~~~~~~~~~~~~~~~~~~~~~~~~~~~~~~~~~~~~~~~~~~~~~~~~~~~~~~~~~~~~~~~~~~~~~~~";

const BATCH_TRAILER_LOW: [u8; RECORD_BYTES] =
    *b"00000005         000000000000000000000000000000000000000000000000                                                                                                                                                                               ";

const BATCH_TRAILER_HIGH: [u8; RECORD_BYTES] =
    *b"99999995         999999999999999999999999999999999999999999999999                                                                                                                                                                               ";

const BATCH_TRAILER_HIGH_RETURN: [u8; RECORD_BYTES] =
    *b"99999995         999999999999999999999999999999999999999999999999                                                                                                                                                                     ~~~~~~~~~~";

const FILE_TRAILER_LOW: [u8; RECORD_BYTES] =
    *b"00000009         000000000000000000                                                                                                                                                                                                             ";

const FILE_TRAILER_HIGH: [u8; RECORD_BYTES] =
    *b"99999999         999999999999999999                                                                                                                                                                                                             ";

const O_LOW: [u8; RECORD_BYTES] =
    *b"0000000300000O 0000000000000000000000000000000000000000000000                                              000000000000000                                                                                                                      ";

const O_HIGH: [u8; RECORD_BYTES] =
    *b"9999999399999O~9999999999999999999999999999999999999999999999~~~~~~~~~~~~~~~~~~~~~~~~~~~~~~~~~~~~~~~~~~~~~~999999999999999~~~~~~~~~~~~~~~~~~~~~~~~~~~~~~~~~~~~~~~~                                                                              ";

const O_HIGH_RETURN: [u8; RECORD_BYTES] =
    *b"9999999399999O~9999999999999999999999999999999999999999999999~~~~~~~~~~~~~~~~~~~~~~~~~~~~~~~~~~~~~~~~~~~~~~999999999999999~~~~~~~~~~~~~~~~~~~~~~~~~~~~~~~~~~~~~~~~                                                                    ~~~~~~~~~~";

// Yes or no, without an early exit: the compiler looks at many bytes at once.
fn fits(low: &[u8; RECORD_BYTES], high: &[u8; RECORD_BYTES], rec: &[u8; RECORD_BYTES]) -> bool
    ensures { result ≡ within low.now high.now rec.now }
{
    let bounds = low.iter().zip(high.iter());
    rec.iter()
        .zip(bounds)
        .fold(true, |fits, (b, (l, h))| fits & (*l <= *b) & (*b <= *h))
}

// Whether a record lies between its masks. What is blank in a remittance may be any byte in a return.
pub(crate) fn hold(rec: &[u8; RECORD_BYTES], which: Record, dir: Direction) -> bool
    ensures { result ≡ within (lows_of (fields_of which)) (highs_of dir (fields_of which)) rec.now }
{
    match which {
        Record::FileHeader => fits(&FILE_HEADER_LOW, &FILE_HEADER_HIGH, rec),
        Record::BatchHeader => match dir {
            Direction::Remittance => fits(&BATCH_HEADER_LOW, &BATCH_HEADER_HIGH, rec),
            Direction::Return => fits(&BATCH_HEADER_LOW, &BATCH_HEADER_HIGH_RETURN, rec),
        },
        Record::SegmentA => match dir {
            Direction::Remittance => fits(&A_LOW, &A_HIGH, rec),
            Direction::Return => fits(&A_LOW, &A_HIGH_RETURN, rec),
        },
        Record::SegmentB => fits(&B_LOW, &B_HIGH, rec),
        Record::SegmentJ => match dir {
            Direction::Remittance => fits(&J_LOW, &J_HIGH, rec),
            Direction::Return => fits(&J_LOW, &J_HIGH_RETURN, rec),
        },
        Record::SegmentJ52 => fits(&J52_LOW, &J52_HIGH, rec),
        Record::SegmentZ => fits(&Z_LOW, &Z_HIGH, rec),
        Record::BatchTrailer => match dir {
            Direction::Remittance => fits(&BATCH_TRAILER_LOW, &BATCH_TRAILER_HIGH, rec),
            Direction::Return => fits(&BATCH_TRAILER_LOW, &BATCH_TRAILER_HIGH_RETURN, rec),
        },
        Record::FileTrailer => fits(&FILE_TRAILER_LOW, &FILE_TRAILER_HIGH, rec),
        Record::SegmentO => match dir {
            Direction::Remittance => fits(&O_LOW, &O_HIGH, rec),
            Direction::Return => fits(&O_LOW, &O_HIGH_RETURN, rec),
        },
    }
}
