// What the house asks of a record behind its fields: right registration numbers, and the rules of J
// and of O.
ghost use Rattle.std.specs.Prelude.{◌≡◌, ◌∷◌, [], ◌≤◌};
ghost use Rattle.answer.specs.Rules.{first_broken};
ghost use Rattle.layout.specs.Field.{field, Id};
ghost use Rattle.layout.specs.Table.{record_bytes};
ghost use Rattle.layout.specs.declared.shapes.House.TheVariants.{ThreeIds};
ghost use Rattle.checker.specs.Line.{id_rule, house_by};

use super::boletos::check_boleto;
use super::collections::check_collection;
use answer::{Answer, numbers};
use layout::{House, RECORD_BYTES, places};

// The registration number at these places of a record.
fn check_id(rec: &[u8; RECORD_BYTES], from: usize, to: usize) -> Answer
    requires { (1 ≤ from) × (from ≤ to) × (to ≤ record_bytes) }
    ensures { result ≡ first_broken (id_rule (field from to Id) rec.now ∷ []) }
{
    let registration = layout::registration_at(rec, from);
    let right = ids::id_fits(registration, &rec[from - 1..to]);
    answer::test(numbers::REGISTRATION, from, right)
}

// The three of a J52: payer, payee and guarantor.
fn check_three_ids(rec: &[u8; RECORD_BYTES]) -> Answer
    ensures { result ≡ first_broken (house_by (Some ThreeIds) rec.now) }
{
    let payer = check_id(rec, places::PAYER_ID_FROM, places::PAYER_ID_TO);
    let payee = check_id(rec, places::PAYEE_ID_FROM, places::PAYEE_ID_TO);
    let guarantor = check_id(rec, places::GUARANTOR_ID_FROM, places::GUARANTOR_ID_TO);
    payer.and(payee.and(guarantor))
}

// The rules of a record's row.
pub(crate) fn check_house(house: Option<House>, rec: &[u8; RECORD_BYTES]) -> Answer
    ensures { result ≡ first_broken (house_by house rec.now) }
{
    match house {
        None => Ok(()),
        Some(House::RulesOfJ) => check_boleto(rec),
        Some(House::OneId) => check_id(rec, places::HOLDER_ID_FROM, places::HOLDER_ID_TO),
        Some(House::ThreeIds) => check_three_ids(rec),
        Some(House::RulesOfO) => check_collection(rec),
    }
}
