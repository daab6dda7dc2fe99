// The byte check: each from 32 to 126.
ghost use Rattle.std.specs.Prelude.{◌≡◌, ◌∷◌, []};
ghost use Rattle.answer.specs.Rules.{first_broken};
ghost use Rattle.layout.specs.Record.{printable, byte_rule, all_printable};

use answer::{Answer, numbers};

const LOWEST: u8 = 32;

const HIGHEST: u8 = 126;

fn is_printable(b: u8) -> bool
    ensures { result ≡ printable b }
{
    (LOWEST <= b) & (b <= HIGHEST)
}

// Yes or no, without an early exit: the compiler looks at many bytes at once.
fn is_clean(rec: &[u8]) -> bool
    ensures { result ≡ all_printable rec.now }
{
    rec.iter().fold(true, |clean, b| clean & is_printable(*b))
}

// Only bytes that are not all printable are walked for the first one that is not.
pub fn check_bytes(rec: &[u8]) -> Answer
    ensures { result ≡ first_broken (byte_rule rec.now ∷ []) }
{
    if is_clean(rec) {
        return Ok(());
    }
    // Left by a label at the first wrong byte, as the fields are.
    'bytes: {
        for (i, b) in rec.iter().enumerate() {
            if !is_printable(*b) {
                break 'bytes answer::refused(numbers::NOT_PRINTABLE, i + 1);
            }
        }
        Ok(())
    }
}
