// Dates DDMMAAAA, times HHMMSS, day numbers and the due factor.
#![tactic(auto)]

mod due;

ghost use Rattle.std.specs.Prelude.{◌≡◌, ◌-◌, ◌≤◌, get_or};
ghost use Rattle.calendar.specs.Calendar.{date_of, leap, february, months, exists, is_time, date_fits, time_fits};

#[derive(Clone, Copy)]
pub struct Date {
    pub day: u64,
    pub month: u64,
    pub year: u64,
}

const FIRST_YEAR: u64 = 1997;

const LAST_YEAR: u64 = 2199;

const MONTHS: u64 = 12;

const FEBRUARY: u64 = 2;

const AUGUST: u64 = 8;

// The days of a month that is neither long nor February.
const SHORT_MONTH: u64 = 30;

const DATE_DIGITS: usize = 8;

const TIME_DIGITS: usize = 6;

// Gregorian: every fourth year, of the centuries every fourth.
fn is_leap(year: u64) -> bool
    ensures { result ≡ leap year }
{
    ((year % 4 == 0) & (year % 100 != 0)) | (year % 400 == 0)
}

fn february_days(year: u64) -> u64
    ensures { result ≡ february year }
{
    if is_leap(year) { 29 } else { 28 }
}

// From January 31 and 30 days take turns, and start anew with August; only February differs.
#[tactic(auto, using(crate::proofs::laws::Days::turns))]
fn days_in(month: u64, year: u64) -> u64
    requires { (1 ≤ month) × (month ≤ 12) }
    ensures { result ≡ get_or (months year) (month - 1) 0 }
{
    if month == FEBRUARY {
        return february_days(year);
    }
    SHORT_MONTH + (month + month / AUGUST) % 2
}

// The date that the number DDMMAAAA names, whether it exists or not.
impl From<u64> for Date {
    ghost from_gives = { λ ddmmaaaa named. named ≡ date_of ddmmaaaa };

    fn from(ddmmaaaa: u64) -> Self {
        Date {
            day: ddmmaaaa / 1000000,
            month: ddmmaaaa / 10000 % 100,
            year: ddmmaaaa % 10000,
        }
    }
}

impl Date {
    // Whether there is such a day, in the years 1997 to 2199.
    #[tactic(auto, unfolding(crate::specs::Calendar::exists))]
    pub fn exists(self) -> bool
        ensures { result ≡ exists self }
    {
        let in_years = (FIRST_YEAR..=LAST_YEAR).contains(&self.year);
        let in_months = (1..=MONTHS).contains(&self.month);
        in_years & in_months && (1..=days_in(self.month, self.year)).contains(&self.day)
    }
}

// To 23, 59, 59.
fn is_time(hhmmss: u64) -> bool
    ensures { result ≡ is_time hhmmss }
{
    (hhmmss / 10000 <= 23) & ((hhmmss / 100 % 100 <= 59) & (hhmmss % 100 <= 59))
}

// Whether the bytes are a date DDMMAAAA that exists.
#[tactic(auto, unfolding(crate::specs::Calendar::date_fits))]
pub fn date_fits(part: &[u8]) -> bool
    ensures { result ≡ date_fits part.now }
{
    part.len() == DATE_DIGITS && digits::number_of(part).is_some_and(|n| Date::from(n).exists())
}

// Whether the bytes are a time HHMMSS.
#[tactic(auto, unfolding(crate::specs::Calendar::time_fits))]
pub fn time_fits(part: &[u8]) -> bool
    ensures { result ≡ time_fits part.now }
{
    part.len() == TIME_DIGITS && digits::number_of(part).is_some_and(is_time)
}
