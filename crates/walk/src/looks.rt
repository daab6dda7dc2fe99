// How the walk looks at a field: the rule of each kind.
ghost use Rattle.std.specs.Prelude.{◌≡◌, [], ◌≤◌, T as Holds, eqb, length, get_or};
ghost use Rattle.std.specs.Bool.{◌==◌};
ghost use Rattle.std.specs.List.{list_any};
ghost use Rattle.answer.specs.Rules.{first_broken};
ghost use Rattle.layout.specs.inner.Lent.{kind_of, may_be};
ghost use Rattle.layout.specs.Table.{record_bytes};
ghost use Rattle.layout.specs.Kinds.{a_part, one_of, pair_rule, id_characters, barcode_rules, blank};
ghost use Rattle.walk.specs.inner.Steps.{Looked, mark_look, text_look, number_or_blank_look};
ghost use Rattle.layout.specs.declared.Direction.TheVariants.{Remittance};
ghost use Rattle.walk.specs.declared.looks.Look.TheVariants.{Fixed};

use answer::{Answer, numbers};
use layout::{BLANK, Content, Direction, RECORD_BYTES, ZERO, kinds, places};

// For digits, for fixed content, or not at all, because the field has been tested whole.
#[derive(Clone, Copy)]
pub(crate) enum Look {
    Digits,
    Fixed { number: u8, content: Content },
    Tested(Answer),
}

fn is_among(b: u8, domain: &[u8]) -> bool
    ensures { result ≡ list_any (λ d. b == d) domain.now }
{
    domain.iter().any(|d| b == *d)
}

fn one_of(domain: &[u8], part: &[u8]) -> bool
    ensures { result ≡ one_of domain.now part.now }
{
    match part {
        [b] => is_among(*b, domain),
        _ => false,
    }
}

// The digits of a barcode, then its currency.
fn barcode(part: &[u8], place: usize) -> Answer
    requires { place ≤ record_bytes }
    ensures { result ≡ first_broken (barcode_rules (a_part place part.now [] Remittance)) }
{
    let digits = answer::test(numbers::NON_DIGIT, place, digits::all_digits(part));
    let currency = boleto::currency_fits(part);
    digits.and(answer::test(
        numbers::DOMAIN,
        place + (boleto::CURRENCY_PLACE - 1),
        currency,
    ))
}

// The characters of a registration number, by the type that stands before it in the record.
fn id(part: &[u8], rec: &[u8; RECORD_BYTES], place: usize) -> Answer
    ensures { result ≡ first_broken (id_characters (a_part place part.now rec.now Remittance)) }
{
    let registration = layout::registration_at(rec, place);
    answer::test(
        numbers::NON_DIGIT,
        place,
        ids::characters_fit(registration, part),
    )
}

// Service and form, which stand in the record.
fn pair(rec: &[u8; RECORD_BYTES], dir: Direction) -> Answer
    ensures { result ≡ first_broken (pair_rule (a_part 0 [] rec.now dir)) }
{
    let service = &rec[places::SERVICE_FROM - 1..places::SERVICE_TO];
    let form = &rec[places::SERVICE_TO..places::FORM_TO];
    answer::test(
        numbers::DOMAIN,
        places::SERVICE_FROM,
        layout::batch_of(dir, service, form).is_some(),
    )
}

// How to look at a type or a segment, each of which is its byte.
fn mark(k: u8) -> Look
    ensures { result ≡ mark_look k }
{
    let number = if k < b'A' {
        numbers::TYPE
    } else {
        numbers::SEGMENT
    };
    Look::Fixed {
        number,
        content: Content::Run(k),
    }
}

fn begins_blank(part: &[u8]) -> bool
    ensures { result ≡ eqb (get_or part.now 0 0) blank }
{
    matches!(part, [BLANK, ..])
}

// Text has to be looked at only where its first byte is blank.
fn text(part: &[u8]) -> Look
    ensures { result ≡ text_look part.now }
{
    if begins_blank(part) {
        Look::Fixed {
            number: numbers::TEXT,
            content: Content::Run(BLANK),
        }
    } else {
        Look::Tested(Ok(()))
    }
}

// A number that may be not given: its first byte says whether blanks or digits have to follow.
fn number_or_blank(part: &[u8]) -> Look
    ensures { result ≡ number_or_blank_look part.now }
{
    if begins_blank(part) {
        Look::Fixed {
            number: numbers::NON_DIGIT,
            content: Content::Run(BLANK),
        }
    } else {
        Look::Digits
    }
}

fn fixed(content: Content) -> Look
    ensures { result ≡ Fixed 12 content }
{
    Look::Fixed {
        number: numbers::FIXED,
        content,
    }
}

// The rule of each kind, for a field from this place on.
// What says where the field stands isn't one value: it would make each promise here longer, as
// `a_part part.entry.place part.entry.bytes.now part.entry.rec.now part.entry.dir`.
pub(crate) fn look_at(
    k: u8,
    dir: Direction,
    part: &[u8],
    rec: &[u8; RECORD_BYTES],
    place: usize,
) -> Look
    requires holds { Holds (may_be (kind_of k) (length part.now)) }
    requires in_record { place ≤ record_bytes }
    ensures { Looked (kind_of k) (a_part place part.now rec.now dir) result }
{
    if (b'0' <= k) & (k <= b'Z') {
        return mark(k);
    }
    match k {
        kinds::N => Look::Digits,
        kinds::ID => Look::Tested(id(part, rec, place)),
        kinds::T => text(part),
        kinds::D => Look::Tested(answer::test(numbers::DATE, place, calendar::date_fits(part))),
        kinds::TIME => Look::Tested(answer::test(numbers::DATE, place, calendar::time_fits(part))),
        kinds::K => fixed(Content::Run(BLANK)),
        kinds::O => match dir {
            Direction::Remittance => fixed(Content::Run(BLANK)),
            Direction::Return => Look::Tested(Ok(())),
        },
        kinds::ZEROS => fixed(Content::Run(ZERO)),
        kinds::EXACT_C => fixed(Content::LetterC),
        kinds::EXACT_09 => fixed(Content::Code09),
        kinds::EXACT_52 => fixed(Content::Code52),
        kinds::ZERO_ONE_TWO => Look::Tested(answer::test(
            numbers::DOMAIN,
            place,
            one_of(b"012", part),
        )),
        kinds::ZERO_NINE => Look::Tested(answer::test(numbers::DOMAIN, place, one_of(b"09", part))),
        kinds::ONE_TWO => Look::Tested(answer::test(numbers::DOMAIN, place, one_of(b"12", part))),
        kinds::SERVICE => Look::Tested(pair(rec, dir)),
        // The pair has been asked at the service.
        kinds::FORM => Look::Tested(Ok(())),
        kinds::BARCODE => Look::Tested(barcode(part, place)),
        kinds::N_OR_BLANK => number_or_blank(part),
        kinds::CODE => Look::Digits,
        _ => Look::Tested(Ok(())),
    }
}
