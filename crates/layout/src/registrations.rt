// The type of a registration number, which stands in the place right before it.
ghost use Rattle.std.specs.Prelude.{◌≡◌, ◌-◌};
ghost use Rattle.layout.specs.Kinds.{registration_at};

use ids::Registration;

// The index of the place before a place; of places 0 and 1, where no number begins, the first index.
fn index_before(from: usize) -> usize
    ensures { result ≡ from - 1 - 1 }
{
    from.saturating_sub(2)
}

// What the registration number is that begins at the place `from` of a record, by the byte before it;
// not checked where no byte stands.
pub fn registration_at(rec: &[u8], from: usize) -> Registration
    ensures { result ≡ registration_at from rec.now }
{
    rec.get(index_before(from))
        .map_or(Registration::Unchecked, |b| Registration::from(*b))
}
