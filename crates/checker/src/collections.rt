// The house rules of O: the collection code's product, its identifier and its general check.
ghost use Rattle.std.specs.Prelude.{◌≡◌};
ghost use Rattle.answer.specs.Rules.{first_broken};
ghost use Rattle.checker.specs.Line.{collection_rules};

use answer::{Answer, numbers};
use boleto::collection;
use layout::{RECORD_BYTES, places};

// Where they stand in an O.
const PRODUCT: usize = places::CODE_FROM - 1 + collection::PRODUCT_PLACE;

const IDENTIFIER: usize = places::CODE_FROM - 1 + collection::IDENTIFIER_PLACE;

const CODE_CHECK: usize = places::CODE_FROM - 1 + collection::CHECK_PLACE;

// All three, in the paper's order.
pub(crate) fn check_collection(rec: &[u8; RECORD_BYTES]) -> Answer
    ensures { result ≡ first_broken (collection_rules rec.now) }
{
    let code = &rec[places::CODE_FROM - 1..places::CODE_TO];
    let product = collection::product_fits(code);
    let identifier = collection::identifier_fits(code);
    let sealed = collection::is_sealed(code);
    let first = answer::test(numbers::PRODUCT, PRODUCT, product);
    let second = answer::test(numbers::IDENTIFIER, IDENTIFIER, identifier);
    let third = answer::test(numbers::CODE_CHECK, CODE_CHECK, sealed);
    first.and(second.and(third))
}
