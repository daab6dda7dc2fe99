// Limits of a file, and the states that no run produces.
ghost use Rattle.std.specs.Prelude.{◌≡◌};
ghost use Rattle.checker.specs.Machine.{sound};

use super::Checker;
use answer::{Cents, FILE_CENTS, RecordCount};

pub const MOST_BATCHES: u64 = 70;

// Of a batch.
pub const MOST_PAYMENTS: u64 = 10000;

// The batch numbers of the file header and of the file trailer.
pub const HEADER_BATCH: u64 = 0;

pub const TRAILER_BATCH: u64 = 9999;

// What no run passes: a payment has at most three records, and an amount 15 digits.
const BATCH_RECORDS: RecordCount = RecordCount(30001);

const BATCH_CENTS: Cents = Cents(10000000000000000000);

const FILE_RECORDS: RecordCount = RecordCount(2100142);

const FILE_PAYMENTS: u64 = 700000;

impl Checker {
    // With these bounds no sum of a line can wrap. What goes by a state that has them asks for them by a
    // clause: a type for it would be made inside, since `step` and `fill` take every state, and each read
    // of a state would say `.0`.
    pub fn is_sound(self) -> bool
        ensures { result ≡ sound self }
    {
        (self.closed.batches <= MOST_BATCHES)
            & ((self.closed.records <= FILE_RECORDS)
                & ((self.closed.payments() <= FILE_PAYMENTS)
                    & ((self.closed.cents() < FILE_CENTS)
                        & ((self.current.batches <= 1)
                            & ((self.current.records <= BATCH_RECORDS)
                                & ((self.current.payments() <= MOST_PAYMENTS)
                                    & (self.current.cents() <= BATCH_CENTS)))))))
    }
}
