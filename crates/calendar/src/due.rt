// Day numbers, by closed arithmetic, and the due factor.
ghost use Rattle.std.specs.Prelude.{◌≡◌, ◌-◌, ◌≤◌, take};
ghost use Rattle.calendar.specs.Calendar.{first_year, last_year, months};
ghost use Rattle.calendar.specs.Due.{total, days_of_years, day_number, due_days, folded, factor_of, factor_fits};

use super::{AUGUST, Date, FEBRUARY, FIRST_YEAR, SHORT_MONTH, february_days};

// The day number of 7 October 1997, from which the factor counts.
const FACTOR_BASE: u64 = 280;

const LAST_FACTOR: u64 = 9999;

// Behind the last factor the count returns to this one, round after round.
const RETURNS_TO: u64 = 1000;

const ROUND_DAYS: u64 = LAST_FACTOR + 1 - RETURNS_TO;

const COMMON_YEAR: u64 = 365;

// The leap years among the years 1 to 1996.
const LEAP_YEARS_BEFORE: u64 = 484;

// The days of the years before this one: a leap year is every fourth, but no century unless it is a
// fourth one.
fn days_before_year(year: u64) -> u64
    requires { (first_year ≤ year) × (year ≤ last_year) }
    ensures { result ≡ days_of_years (year - first_year) }
{
    let last = year - 1;
    let leap_years = last / 4 - last / 100 + last / 400;
    COMMON_YEAR * (year - FIRST_YEAR) + (leap_years - LEAP_YEARS_BEFORE)
}

// The days of the year's months before this one: those that 31 and 30 days by turns give, less what
// February lacks.
fn days_before_month(month: u64, year: u64) -> u64
    requires { (1 ≤ month) × (month ≤ 12) }
    ensures { result ≡ total (take (month - 1) (months year)) }
{
    let before = month - 1;
    // January is long and then every second month, and anew from August
    let long_months = (before + before / AUGUST + 1) / 2;
    let by_turns = SHORT_MONTH * before + long_months;
    if before < FEBRUARY {
        by_turns
    } else {
        by_turns - (SHORT_MONTH - february_days(year))
    }
}

// Days as a factor: up to the last factor they are it, later ones are folded into a round.
#[tactic(auto, unfolding(crate::specs::Due::folded))]
fn folded(days: u64) -> u64
    ensures { result ≡ folded days }
{
    if days <= LAST_FACTOR {
        days
    } else {
        RETURNS_TO + (days - RETURNS_TO) % ROUND_DAYS
    }
}

impl Date {
    // 1 January 1997 is 1; a date that does not exist has no number: 0.
    pub fn day_number(self) -> u64
        ensures { result ≡ day_number self }
    {
        if self.exists() {
            days_before_year(self.year) + days_before_month(self.month, self.year) + self.day
        } else {
            0
        }
    }

    // The days after 7 October 1997; 0 up to that day.
    #[tactic(auto, using(crate::proofs::laws::Factors::base_day), unfolding(crate::specs::Due::due_days))]
    fn due_days(self) -> u64
        ensures { result ≡ due_days self }
    {
        self.day_number().saturating_sub(FACTOR_BASE)
    }

    // The one factor of a due date; 0 for one that has none.
    #[tactic(auto, unfolding(crate::specs::Due::factor_of))]
    pub fn due_factor(self) -> u64
        ensures { result ≡ factor_of self }
    {
        folded(self.due_days())
    }

    // Whether a boleto with this factor may be due on this date: 0 means no due date.
    pub fn fits_factor(self, factor: u64) -> bool
        ensures { result ≡ factor_fits factor self }
    {
        factor == 0 || factor == self.due_factor()
    }
}
