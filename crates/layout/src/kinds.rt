// The kinds of field, and what a field of each kind is filled with. They are numbers and no enum: the
// whole table is held as numbers.
ghost use Rattle.std.specs.Prelude.{◌≡◌};
ghost use Rattle.layout.specs.inner.Lent.{is_whole, kind_of, fill_of};
ghost use Rattle.layout.specs.Kinds.{may_be_absent, means};

use super::fixed::{BLANK, Content, ZERO};

// The caller's number, the caller's text, or fixed content.
#[derive(Clone, Copy)]
pub enum Fill {
    Number,
    Text,
    Fixed(Content),
}

pub const N: u8 = 0;

// From here to T: a rule that asks more than the masks of a record tell.
pub const D: u8 = 1;

pub const TIME: u8 = 2;

pub const ZERO_NINE: u8 = 3;

pub const SERVICE: u8 = 4;

pub const BARCODE: u8 = 5;

pub const T: u8 = 6;

pub const FORM: u8 = 7;

pub const ZERO_ONE_TWO: u8 = 8;

pub const ONE_TWO: u8 = 9;

pub const ID: u8 = 10;

pub const O: u8 = 11;

// Fixed content. A type and a segment are named by their byte, from 0 to Z.
pub const K: u8 = 12;

pub const ZEROS: u8 = 13;

pub const EXACT_C: u8 = 14;

pub const EXACT_09: u8 = 15;

pub const EXACT_52: u8 = 16;

// Digits, or blanks for a number that is not given.
pub const N_OR_BLANK: u8 = 17;

// The digits of a collection code.
pub const CODE: u8 = 18;

// Any other number.
pub const F: u8 = 19;

// Whether the kind's rule asks more than the masks of a record tell.
pub fn is_whole(k: u8) -> bool
    ensures { result ≡ is_whole k }
{
    (D <= k) & (k <= T)
}

// Whether the kind is that of a number that may be not given.
pub fn may_be_absent(k: u8) -> bool
    ensures { result ≡ may_be_absent (means (kind_of k)).held }
{
    k == N_OR_BLANK
}

// What a field of this kind is filled with.
pub fn fill_of(k: u8) -> Fill
    ensures { result ≡ fill_of k }
{
    if (b'0' <= k) & (k <= b'Z') {
        return Fill::Fixed(Content::Run(k));
    }
    match k {
        N | D | TIME | ZERO_NINE | SERVICE | FORM | ZERO_ONE_TWO | ONE_TWO | N_OR_BLANK => {
            Fill::Number
        }
        K => Fill::Fixed(Content::Run(BLANK)),
        ZEROS => Fill::Fixed(Content::Run(ZERO)),
        EXACT_C => Fill::Fixed(Content::LetterC),
        EXACT_09 => Fill::Fixed(Content::Code09),
        EXACT_52 => Fill::Fixed(Content::Code52),
        _ => Fill::Text,
    }
}
