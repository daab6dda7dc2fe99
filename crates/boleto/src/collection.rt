// The two digit strings of a bill for water, power or taxes, the collection code of 44 digits and
// the line of 48: checked, and turned into each other.
//
// Most functions have a twin among a boleto's. What two of them share is called by both
// (`check_string`, `check_part`, `put`, `seal`, `answer::room`); in the two to four lines that are left
// each calls something else, and one function for both would be handed all of it.
ghost use Rattle.std.specs.Prelude.{◌≡◌, ◌++◌, ◌≤◌, IfOk, length, drop};
ghost use Rattle.answer.specs.Rules.{first_broken, answer_alone};
ghost use Rattle.answer.specs.Output.{Writes};
ghost use Rattle.boleto.specs.Collection.{code_digits, code_line_digits, modulus_of, code_line_of, code_of};
ghost use Rattle.boleto.specs.CollectionRules.{product_fits, identifier_fits, code_sealed, code_head_rules, code_rules, block_rules, code_line_rules};

use super::check_string;
use super::parts::{check_part, places, put, seal};
use answer::{Answer, Refusal, numbers};
use digits::Modulus;

const CODE_DIGITS: usize = 44;

const LINE_DIGITS: usize = 48;

// Where product, value identifier and general check stand, in both strings.
pub const PRODUCT_PLACE: usize = 1;

pub const IDENTIFIER_PLACE: usize = 3;

pub const CHECK_PLACE: usize = 4;

// Whether the product of a code or a line is 8.
pub fn product_fits(s: &[u8]) -> bool
    ensures { result ≡ product_fits s.now }
{
    s.get(PRODUCT_PLACE - 1) == Some(&b'8')
}

// Whether the value identifier of a code or a line is 6, 7, 8 or 9.
pub fn identifier_fits(s: &[u8]) -> bool
    ensures { result ≡ identifier_fits s.now }
{
    matches!(s.get(IDENTIFIER_PLACE - 1), Some(b'6'..=b'9'))
}

// How the check digits of a code or a line are made: its identifier says.
#[tactic(auto, unfolding(crate::specs::Collection::modulus_of))]
fn modulus_of(s: &[u8]) -> Modulus
    ensures { result ≡ modulus_of s.now }
{
    match s.get(IDENTIFIER_PLACE - 1) {
        Some(b'6' | b'7') => Modulus::Ten,
        _ => Modulus::PlainEleven,
    }
}

// The general check of a code.
pub fn is_sealed(code: &[u8]) -> bool
    ensures { result ≡ code_sealed code.now }
{
    digits::is_sealed(modulus_of(code), code, CHECK_PLACE - 1)
}

// A string of N digits by the rules that code and line share, or what is wrong with it.
fn check_head<const N: usize>(s: &[u8]) -> Result<&[u8; N], Refusal>
    ensures answer { answer_alone result ≡ first_broken (code_head_rules N s.now) }
    ensures string { IfOk result (λ string. string.now ≡ s.now) }
{
    let string = check_string::<N>(s)?;
    answer::test(numbers::PRODUCT, PRODUCT_PLACE, product_fits(string))?;
    answer::test(
        numbers::IDENTIFIER,
        IDENTIFIER_PLACE,
        identifier_fits(string),
    )?;
    Ok(string)
}

// A code that is right, or what is wrong with it.
fn right_code(code: &[u8]) -> Result<&[u8; CODE_DIGITS], Refusal>
    ensures answer { answer_alone result ≡ first_broken (code_rules code.now) }
    ensures string { IfOk result (λ string. string.now ≡ code.now) }
{
    let code = check_head::<CODE_DIGITS>(code)?;
    answer::test(numbers::CODE_CHECK, CHECK_PLACE, is_sealed(code))?;
    Ok(code)
}

// Writes the code of a line over the first 44 bytes of out.
fn write_code(line: &[u8; LINE_DIGITS], out: &mut [u8])
    requires { code_digits ≤ length out.old }
    ensures { out.new ≡ code_of line.now ++ drop code_digits out.old }
{
    put(line, places(1, 11), out, 1);
    put(line, places(13, 23), out, 12);
    put(line, places(25, 35), out, 23);
    put(line, places(37, 47), out, 34);
}

// Writes the line of a code over the first 48 bytes of out.
fn write_line(code: &[u8; CODE_DIGITS], out: &mut [u8])
    requires { code_line_digits ≤ length out.old }
    ensures { out.new ≡ code_line_of code.now ++ drop code_line_digits out.old }
{
    let m = modulus_of(code);
    put(code, places(1, 11), out, 1);
    seal(m, out, places(1, 12));
    put(code, places(12, 22), out, 13);
    seal(m, out, places(13, 24));
    put(code, places(23, 33), out, 25);
    seal(m, out, places(25, 36));
    put(code, places(34, 44), out, 37);
    seal(m, out, places(37, 48));
}

// The general check of a line is that of its code.
fn line_is_sealed(line: &[u8; LINE_DIGITS]) -> bool
    ensures { result ≡ code_sealed (code_of line.now) }
{
    let mut code = [0u8; CODE_DIGITS];
    write_code(line, &mut code);
    is_sealed(&code)
}

// The five check digits of a line.
fn check_blocks(line: &[u8; LINE_DIGITS]) -> Answer
    ensures { result ≡ first_broken (block_rules line.now) }
{
    let m = modulus_of(line);
    check_part(numbers::BLOCK_CHECK, m, line, places(1, 12))?;
    check_part(numbers::BLOCK_CHECK, m, line, places(13, 24))?;
    check_part(numbers::BLOCK_CHECK, m, line, places(25, 36))?;
    check_part(numbers::BLOCK_CHECK, m, line, places(37, 48))?;
    answer::test(numbers::CODE_CHECK, CHECK_PLACE, line_is_sealed(line))
}

// A line that is right, or what is wrong with it.
fn right_line(line: &[u8]) -> Result<&[u8; LINE_DIGITS], Refusal>
    ensures answer { answer_alone result ≡ first_broken (code_line_rules line.now) }
    ensures string { IfOk result (λ string. string.now ≡ line.now) }
{
    let line = check_head::<LINE_DIGITS>(line)?;
    check_blocks(line)?;
    Ok(line)
}

// A code: its length, its digits, its product, its identifier and its general check.
pub fn check_code(code: &[u8]) -> Answer
    ensures { result ≡ first_broken (code_rules code.now) }
{
    right_code(code)?;
    Ok(())
}

// A line: its length, its digits, its product, its identifier, its four blocks and its general check.
pub fn check_code_line(line: &[u8]) -> Answer
    ensures { result ≡ first_broken (code_line_rules line.now) }
{
    right_line(line)?;
    Ok(())
}

// Writes the line of a code over the first 48 bytes of out.
pub fn code_to_line(code: &[u8], out: &mut [u8]) -> Answer
    ensures { Writes (code_rules code.now) code_line_digits (code_line_of code.now) out.old result out.new }
{
    let code = right_code(code)?;
    answer::room(LINE_DIGITS, out)?;
    write_line(code, out);
    Ok(())
}

// Writes the code of a line over the first 44 bytes of out.
pub fn line_to_code(line: &[u8], out: &mut [u8]) -> Answer
    ensures { Writes (code_line_rules line.now) code_digits (code_of line.now) out.old result out.new }
{
    let line = right_line(line)?;
    answer::room(CODE_DIGITS, out)?;
    write_code(line, out);
    Ok(())
}
