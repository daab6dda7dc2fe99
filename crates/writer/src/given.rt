// What a payment is given: the fields of its records, one behind the other. What the writer fills is
// not looked at.
ghost use Rattle.std.specs.Prelude.{◌≡◌, ◌≤◌, length};
ghost use Rattle.checker.specs.Machine.{most_details};
ghost use Rattle.writer.specs.Given.{one, two, three, first_in, records_in};
ghost use Rattle.writer.specs.inner.Steps.{nth_in};

use fields::Fields;
use layout::Record;

// The most records of a payment: two and a Z.
pub(crate) const MOST_RECORDS: usize = 3;

// One record, which is an O, two or three: no other count of them can be written down.
#[derive(Clone, Copy)]
enum Given {
    One(Fields),
    Two(Fields, Fields),
    Three(Fields, Fields, Fields),
}

// A payment's records. They are private: a payment is made by `of_one`, `of_two` or `of_three`.
#[derive(Clone, Copy)]
pub struct Payment {
    given: Given,
}

impl Payment {
    // A payment of one record, which is an O: fields of another record are taken as a spoiled one.
    pub fn of_one(first: Fields) -> Payment
        ensures { result ≡ one first }
    {
        Payment {
            given: Given::One(first),
        }
    }

    // A payment of two records.
    pub fn of_two(first: Fields, second: Fields) -> Payment
        ensures { result ≡ two first second }
    {
        Payment {
            given: Given::Two(first, second),
        }
    }

    // A payment of three records: two and a Z, or whatever is given in their places.
    pub fn of_three(first: Fields, second: Fields, third: Fields) -> Payment
        ensures { result ≡ three first second third }
    {
        Payment {
            given: Given::Three(first, second, third),
        }
    }

    // How many records it has.
    pub(crate) fn records(self) -> usize
        ensures { (result ≡ length (records_in self)) × (result ≤ most_details) }
    {
        match self.given {
            Given::One(_) => 1,
            Given::Two(_, _) => 2,
            Given::Three(_, _, _) => 3,
        }
    }

    // The first record; alone it is an O.
    pub(crate) fn first_record(self) -> Fields
        ensures { result ≡ first_in self }
    {
        match self.given {
            Given::One(first) => first.taken_as(Record::SegmentO),
            Given::Two(first, _) | Given::Three(first, _, _) => first,
        }
    }

    // The record at a position, from 0 on. No position behind the last is asked for.
    pub(crate) fn record_at(self, position: usize) -> Fields
        ensures { result ≡ nth_in position self }
    {
        match (self.given, position) {
            (_, 0) => self.first_record(),
            (Given::Two(_, second) | Given::Three(_, second, _), 1) => second,
            (Given::Three(_, _, third), _) => third,
            (Given::One(_) | Given::Two(_, _), _) => Fields::none(Record::SegmentZ),
        }
    }
}
