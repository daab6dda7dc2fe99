// A whole file, and the end of the input.
ghost use Rattle.std.specs.Prelude.{◌≡◌};
ghost use Rattle.files.specs.File.{out_of_turn, end_of, finish, check_file};

use super::lines;
use answer::{Refusal, numbers};
use checker::{Checker, Totals};

// What is in an accepted file, or the first refusal.
pub type Outcome = Result<Totals, Refusal>;

// A call that its state does not allow.
pub(crate) fn out_of_turn() -> Refusal
    ensures { result ≡ out_of_turn }
{
    Refusal::at(numbers::OUT_OF_TURN, 0)
}

// The end, declared: it goes by the state alone.
pub fn end(at: Checker) -> Outcome
    ensures { result ≡ end_of at }
{
    if !at.is_sound() {
        return Err(out_of_turn());
    }
    if checker::is_ended(at.phase()) {
        return Ok(at.closed());
    }
    Err(Refusal {
        number: numbers::UNFINISHED,
        line: at.next_line(),
        place: 0,
    })
}

// The end of the input, with the bytes that are left of it.
pub(crate) fn finish(from: Checker, rest: &[u8]) -> Outcome
    ensures { result ≡ finish from rest.now }
{
    let stepped = lines::run(from, rest);
    stepped.answer?;
    end(stepped.state)
}

// A whole file.
pub fn check_file(file: &[u8]) -> Outcome
    ensures { result ≡ check_file file.now }
{
    finish(Checker::start(), file)
}
