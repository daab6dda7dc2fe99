// Where each digit of the line goes in the barcode, and back.
ghost use Rattle.std.specs.Prelude.{◌≡◌, ◌++◌, ◌≤◌, length, drop};
ghost use Rattle.boleto.specs.Strings.{barcode_digits, line_digits, digit_line_of, barcode_of};

use super::parts::{places, put, seal};
use super::{BARCODE_DIGITS, LINE_DIGITS};
use digits::Modulus;

// Writes the barcode of a line over the first 44 bytes of out.
pub(crate) fn write_barcode(line: &[u8; LINE_DIGITS], out: &mut [u8])
    requires { barcode_digits ≤ length out.old }
    ensures { out.new ≡ barcode_of line.now ++ drop barcode_digits out.old }
{
    // bank and currency; general check, factor and cents; then the free digits
    put(line, places(1, 4), out, 1);
    put(line, places(33, 47), out, 5);
    put(line, places(5, 9), out, 20);
    put(line, places(11, 20), out, 25);
    put(line, places(22, 31), out, 35);
}

// Writes the line of a barcode over the first 47 bytes of out.
pub(crate) fn write_line(bar: &[u8; BARCODE_DIGITS], out: &mut [u8])
    requires { line_digits ≤ length out.old }
    ensures { out.new ≡ digit_line_of bar.now ++ drop line_digits out.old }
{
    // bank, currency and the first free digits; the other free digits; general check, factor and cents
    put(bar, places(1, 4), out, 1);
    put(bar, places(20, 24), out, 5);
    seal(Modulus::Ten, out, places(1, 10));
    put(bar, places(25, 34), out, 11);
    seal(Modulus::Ten, out, places(11, 21));
    put(bar, places(35, 44), out, 22);
    seal(Modulus::Ten, out, places(22, 32));
    put(bar, places(5, 19), out, 33);
}
