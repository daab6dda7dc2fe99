// Prints what the calendar says, to be held against an outside calendar. For each year from 1996 to
// 2200: the year, how many dates DDMMAAAA of it exist among days 0 to 32 of months 0 to 13, the day
// number of its 31 December and the due factor of its 1 March. Then, of all dates in their order, those
// whose factor is not the next behind the last date's: day, month, year, the last date's factor and its
// own. Then how many times HHMMSS there are among all numbers of six digits.
#![tactic(auto)]

ghost use Rattle.std.specs.Prelude.{◌≤◌};

use calendar::Date;
use std::io;

const DAYS_TRIED: u64 = 33;

const MONTHS_TRIED: u64 = 14;

const FIRST_TRIED: u64 = 1996;

const LAST_TRIED: u64 = 2200;

const TIMES_TRIED: u64 = 1000000;

const LONGEST_MONTH: u64 = 31;

const MONTHS: u64 = 12;

// DDMM0000
const LAST_OF_DECEMBER: u64 = 31120000;

const FIRST_OF_MARCH: u64 = 1030000;

// The digits of a number at a width.
fn spelled<const N: usize>(n: u64) -> [u8; N] {
    let mut text = [0; N];
    digits::write_number(n, &mut text);
    text
}

fn is_date(ddmmaaaa: u64) -> bool {
    calendar::date_fits(&spelled::<8>(ddmmaaaa))
}

fn is_time(hhmmss: u64) -> bool {
    calendar::time_fits(&spelled::<6>(hhmmss))
}

fn dates_in(year: u64) -> usize
    requires { year ≤ 2200 }
{
    (0..DAYS_TRIED * MONTHS_TRIED)
        .filter(|tried| {
            let day = tried % DAYS_TRIED;
            let month = tried / DAYS_TRIED;
            is_date(day * 1000000 + month * 10000 + year)
        })
        .count()
}

fn times() -> usize {
    (0..TIMES_TRIED).filter(|tried| is_time(*tried)).count()
}

fn print_year(rt: &impl Print, year: u64) -> io::Result<()>
    requires { year ≤ 2200 }
{
    let dates = dates_in(year);
    let days = Date::from(LAST_OF_DECEMBER + year).day_number();
    let factor = Date::from(FIRST_OF_MARCH + year).due_factor();
    println!(rt; "{year} {dates} {days} {factor}")
}

fn print_years(rt: &impl Print) -> io::Result<()> {
    for year in FIRST_TRIED..=LAST_TRIED {
        print_year(rt, year)?;
    }
    Ok(())
}

// Whether a date's factor is the next behind the last date's: one more, or still none.
fn goes_on(last: u64, factor: u64) -> bool {
    (factor == 0 && last == 0) || (1 < factor && factor - 1 == last)
}

fn print_turn(rt: &impl Print, date: Date, last: u64, factor: u64) -> io::Result<()> {
    let Date { day, month, year } = date;
    println!(rt; "{day} {month} {year} {last} {factor}")
}

// The factor of this date, which is printed if it is not the next; the last one's if there is no such date.
fn factor_behind(rt: &impl Print, last: u64, date: Date) -> io::Result<u64> {
    if !date.exists() {
        return Ok(last);
    }
    let factor = date.due_factor();
    if !goes_on(last, factor) {
        print_turn(rt, date, last, factor)?;
    }
    Ok(factor)
}

fn print_turns(rt: &impl Print) -> io::Result<()> {
    let mut last = 0;
    for year in FIRST_TRIED..=LAST_TRIED {
        for month in 1..=MONTHS {
            for day in 1..=LONGEST_MONTH {
                last = factor_behind(rt, last, Date { day, month, year })?;
            }
        }
    }
    Ok(())
}

fn main(rt: HostRuntime) -> io::Result<()> {
    print_years(&rt)?;
    print_turns(&rt)?;
    let times = times();
    println!(rt; "{times}")
}
