// The line that the programs print: `OK` or `NO`, and numbers. What it says and the bytes that it
// has are promised; that they are printed is output, of which no contract can speak.
#![tactic(auto)]

ghost use Rattle.std.specs.Prelude.{◌≡◌, Some};
ghost use Rattle.std.specs.Fmt.{WritesOnOk};
ghost use Rattle.checker.specs.Totals.{totals};
ghost use Rattle.reply.specs.Lines.{refusal_line, answer_line, outcome_line, totals_text, line_text};

use answer::{Answer, RecordCount, Refusal};
use checker::{Live, Totals, Withdrawn};
use files::Outcome;
use std::fmt;

// What a line says: a type of its own, since a `Result` can't be given a `Display` here.
#[derive(Clone, Copy)]
pub enum Line {
    // `OK`.
    Accepted,
    // `OK batches records payments cents payments cents`, the live ones before the withdrawn ones.
    Counted(Totals),
    // `NO number line place`.
    Refused(Refusal),
}

impl From<Refusal> for Line {
    ghost from_gives = { λ r line. line ≡ refusal_line r };

    fn from(r: Refusal) -> Line {
        Line::Refused(r)
    }
}

impl From<Answer> for Line {
    ghost from_gives = { λ answer line. line ≡ answer_line answer };

    fn from(answer: Answer) -> Line {
        match answer {
            Ok(()) => Line::Accepted,
            Err(r) => Line::from(r),
        }
    }
}

impl From<Outcome> for Line {
    ghost from_gives = { λ outcome line. line ≡ outcome_line outcome };

    fn from(outcome: Outcome) -> Line {
        match outcome {
            Ok(t) => Line::Counted(t),
            Err(r) => Line::from(r),
        }
    }
}

// The bytes of the line, without LF.
impl fmt::Display for Line {
    ghost output = { λ line. Some (line_text line) };

    fn fmt<W: fmt::Write>(&self, f: &mut fmt::Formatter<W>) -> fmt::Result {
        match *self {
            Line::Accepted => write!(f, "OK"),
            Line::Counted(t) => write_counts(f, t.batches(), t.records(), t.live(), t.withdrawn()),
            Line::Refused(r) => write!(f, "NO {} {} {}", r.number, r.line.0, r.place),
        }
    }
}

// The live payments come before the withdrawn ones, and each is a type of its own.
fn write_counts<W: fmt::Write>(
    f: &mut fmt::Formatter<W>,
    batches: u64,
    records: RecordCount,
    live: Live,
    withdrawn: Withdrawn,
) -> fmt::Result
    ensures { WritesOnOk W.write_str_gives f.old result (totals_text (totals batches records.0 live withdrawn)) f.new }
{
    write!(
        f,
        "OK {batches} {} {} {} {} {}",
        records.0,
        live.payments(),
        live.cents().0,
        withdrawn.payments(),
        withdrawn.cents().0,
    )
}
