// Registration numbers: the CPF of a person and the CNPJ of a company or an office, by the check
// digits of Receita Federal, as strings and as they stand in the fields of a record.
#![tactic(auto)]

ghost use Rattle.std.specs.Prelude.{◌≡◌};
ghost use Rattle.ids.specs.Ids.{registration_of, is_cpf, has_cnpj_characters, is_cnpj, on_the_right, in_front, characters_fit, all_zeros, id_fits};

use digits::Modulus;

// What the type beside a number says that it is. What isn't checked is a kind of its own and no
// `None`: its characters are digits all the same.
#[derive(Clone, Copy)]
pub enum Registration {
    Unchecked,
    Cpf,
    Cnpj,
}

const CPF_TYPE: u8 = b'1';

const CNPJ_TYPE: u8 = b'2';

const CPF_DIGITS: usize = 11;

const CNPJ_CHARACTERS: usize = 14;

// So many of a CNPJ's characters may be letters; its two check digits stand behind them.
const CNPJ_LETTERS: usize = 12;

// By the byte of the type.
impl From<u8> for Registration {
    ghost from_gives = { λ b registration. registration ≡ registration_of b };

    fn from(b: u8) -> Self {
        match b {
            CPF_TYPE => Registration::Cpf,
            CNPJ_TYPE => Registration::Cnpj,
            _ => Registration::Unchecked,
        }
    }
}

// Whether s is a CPF: eleven digits, the last two the check digits.
pub fn is_cpf(s: &[u8]) -> bool
    ensures { result ≡ is_cpf s.now }
{
    s.len() == CPF_DIGITS
        && digits::all_digits(s) & digits::ends_right_twice(Modulus::LongEleven, s)
}

// Twelve digits or capital letters, and two digits.
fn has_cnpj_characters(s: &[u8]) -> bool
    ensures { result ≡ has_cnpj_characters s.now }
{
    s.len() == CNPJ_CHARACTERS
        && digits::all_characters(&s[..CNPJ_LETTERS]) & digits::all_digits(&s[CNPJ_LETTERS..])
}

// Whether s is a CNPJ: fourteen such characters, the last two the check digits. The length is asked
// here too: where the compiler knows it, it lays out the sums without a loop.
pub fn is_cnpj(s: &[u8]) -> bool
    ensures { result ≡ is_cnpj s.now }
{
    s.len() == CNPJ_CHARACTERS
        && has_cnpj_characters(s) & digits::ends_right_twice(Modulus::PlainEleven, s)
}

// The last n bytes of a field, and those in front of them.
fn split_at_last(part: &[u8], n: usize) -> (&[u8], &[u8])
    ensures front { result.0.now ≡ in_front n part.now }
    ensures last { result.1.now ≡ on_the_right n part.now }
{
    part.split_at(part.len().saturating_sub(n))
}

// Whether a field has the characters that its number may have.
#[tactic(auto, unfolding(crate::specs::Ids::characters_fit))]
pub fn characters_fit(registration: Registration, part: &[u8]) -> bool
    ensures { result ≡ characters_fit registration part.now }
{
    match registration {
        Registration::Unchecked | Registration::Cpf => digits::all_digits(part),
        Registration::Cnpj => {
            let (front, number) = split_at_last(part, CNPJ_CHARACTERS);
            digits::all_digits(front) & has_cnpj_characters(number)
        }
    }
}

fn are_zeros(s: &[u8]) -> bool
    ensures { result ≡ all_zeros s.now }
{
    s.iter().fold(true, |all, b| all & (*b == b'0'))
}

// Whether a field holds a right number, on the right and behind zeros; type 0 is not checked.
#[tactic(auto, unfolding(crate::specs::Ids::id_fits))]
pub fn id_fits(registration: Registration, part: &[u8]) -> bool
    ensures { result ≡ id_fits registration part.now }
{
    match registration {
        Registration::Unchecked => true,
        Registration::Cpf => {
            let (zeros, number) = split_at_last(part, CPF_DIGITS);
            are_zeros(zeros) & is_cpf(number)
        }
        Registration::Cnpj => {
            let (zeros, number) = split_at_last(part, CNPJ_CHARACTERS);
            are_zeros(zeros) & is_cnpj(number)
        }
    }
}
