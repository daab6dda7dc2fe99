// The state behind an accepted line.
ghost use Rattle.std.specs.Prelude.{◌≡◌};
ghost use Rattle.layout.specs.Field.{part};
ghost use Rattle.layout.specs.Pairs.{batch_of};
ghost use Rattle.layout.specs.Table.{service_field, form_field};
ghost use Rattle.checker.specs.Machine.{direction_of, next};
ghost use Rattle.checker.specs.inner.Steps.{Bounded};

use super::Checker;
use super::reading::Reading;
use super::totals::{Totals, counted};
use layout::{Batch, Direction, LineType, RECORD_BYTES, places};

// No `From` a byte: that any byte but '2' is a remittance holds of a header whose fields were checked.
fn direction_of(rec: &[u8; RECORD_BYTES]) -> Direction
    ensures { result ≡ direction_of rec.now }
{
    if rec[places::DIRECTION - 1] == b'2' {
        Direction::Return
    } else {
        Direction::Remittance
    }
}

// The kind of batch that a batch header opens.
fn batch_opened(dir: Direction, rec: &[u8; RECORD_BYTES]) -> Option<Batch>
    ensures { result ≡ batch_of dir (part service_field rec.now) (part form_field rec.now) }
{
    let service = &rec[places::SERVICE_FROM - 1..places::SERVICE_TO];
    let form = &rec[places::SERVICE_TO..places::FORM_TO];
    layout::batch_of(dir, service, form)
}

impl Checker {
    // The state behind an accepted line: the file's own lines count in the file, those of a batch in
    // the open batch, which counts among the closed ones behind its trailer. What the line counts stands
    // in each arm: bound once ahead of them, it costs some ten instructions a line.
    pub(crate) fn after(self, reading: Reading) -> Checker
        requires { Bounded self }
        ensures { result ≡ next reading.entry.which self reading.entry.rec.now }
    {
        let Reading { rec, shape, .. } = reading;
        let moved = Checker {
            phase: shape.after,
            ..self
        };
        match shape.line {
            LineType::FileFirst => Checker {
                dir: direction_of(rec),
                batch: None,
                bank: digits::value(&rec[places::BANK_FROM - 1..places::BANK_TO]),
                closed: self.closed.plus(counted(shape, rec)),
                ..moved
            },
            LineType::BatchFirst => Checker {
                batch: batch_opened(self.dir, rec),
                current: self.current.plus(counted(shape, rec)),
                ..moved
            },
            LineType::Detail => Checker {
                current: self.current.plus(counted(shape, rec)),
                ..moved
            },
            LineType::BatchLast => Checker {
                batch: None,
                closed: self.closed.plus(self.current.plus(counted(shape, rec))),
                current: Totals::none(),
                ..moved
            },
            LineType::FileLast => Checker {
                batch: None,
                closed: self.closed.plus(counted(shape, rec)),
                ..moved
            },
        }
    }
}
