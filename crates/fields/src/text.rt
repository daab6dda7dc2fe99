// Text: the bytes of the fields that are not held as numbers, at their places.
ghost use Rattle.std.specs.Prelude.{◌≡◌};
ghost use Rattle.fields.specs.Values.{text_with};

use super::table::{count, entry_of};
use layout::{RECORD_BYTES, Record};

// The text with these bytes over the first places of a field.
pub(crate) fn text_with(
    mut text: [u8; RECORD_BYTES],
    which: Record,
    field: usize,
    bytes: &[u8],
) -> [u8; RECORD_BYTES]
    ensures { result ≡ text_with which field bytes.now text }
{
    if field < count(which) {
        let e = entry_of(which, field);
        layout::copy(bytes, &mut text[e.from - 1..e.to]);
    }
    text
}
