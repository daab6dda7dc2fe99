// Many lines, one behind the other.
ghost use Rattle.std.specs.Prelude.{◌≡◌};
ghost use Rattle.files.specs.File.{lines_of, steps};

use checker::{Checker, LINE_BYTES, Stepped};

// The lines of a part, up to the first refusal, which leaves the state behind the lines before it.
// The last line may be cut short, which refuses it.
pub(crate) fn run(from: Checker, part: &[u8]) -> Stepped
    ensures { result ≡ steps from (lines_of part.now) }
{
    let mut state = from;
    for line in part.chunks(LINE_BYTES) {
        let stepped = state.step(line);
        if stepped.answer.is_err() {
            return stepped;
        }
        state = stepped.state;
    }
    Stepped {
        state,
        answer: Ok(()),
    }
}
