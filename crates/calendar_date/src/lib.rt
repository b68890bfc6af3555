// The day of a date and the date of a day.
#![tactic(auto)]

ghost use Rattle.std.specs.Prelude.{◌≡◌};
ghost use Rattle.answers.specs.Answer.{told};
ghost use Rattle.months_rules.specs.Rules.{rules_of};
ghost use Rattle.calendar_date.specs.Dates.{day_of, date_in, date_of, cycle, date_number};
ghost use Rattle.calendar_date.specs.Room.{CoveredDay};

use answers::Refusal;
use months_rules::Calendar;

#[derive(Clone, Copy, Debug, PartialEq, Eq)]
pub struct Date {
    pub year: u16,
    pub month: u8,
    pub leap: bool,
    pub day: u8,
}

// The day number of a date.
pub fn day_of(calendar: u64, year: u64, month: u64, leap: bool, day: u64) -> Result<u32, Refusal>
    ensures { told result ≡ day_of calendar year month leap day }
{
    let (calendar, found) = calendar_month::asked_month(calendar, year, month, leap, day)?;
    Ok((found.start + day - 1 - calendar.numbers().day_zero) as u32)
}

// The date on a day, told in whole days from the calendar's origin.
fn date_in(calendar: Calendar, day: u32) -> Date
    requires { CoveredDay (rules_of calendar) day }
    ensures { result ≡ date_in (rules_of calendar) day }
{
    let found = months::month_of(calendar, day);
    let last = months::last_term_of(calendar, found);
    Date {
        year: calendar.term_year(last.term),
        month: calendar.term_number(last.term),
        leap: last.leap,
        day: (day as u64 - found.start + 1) as u8,
    }
}

// The date of a day number.
pub fn date_of(calendar: u64, day: u64) -> Result<Date, Refusal>
    ensures { told result ≡ date_of calendar day }
{
    let calendar = Calendar::try_from(calendar)?;
    let numbers = calendar.numbers();
    if day < numbers.first_day {
        return Err(Refusal::DayNotCovered);
    }
    if numbers.after_last <= day {
        return Err(Refusal::DayNotCovered);
    }
    Ok(date_in(calendar, (day + numbers.day_zero) as u32))
}

// The place of a day in the cycle of sixty, 0 to 59.
pub fn cycle_of(day: u64) -> u8
    ensures { result ≡ cycle day }
{
    ((day % 60 + 49) % 60) as u8
}

// A date as one number: year, month and day side by side, and 100,000,000 more in a leap month. (README names this function, and a `From` would not
// say which of a date's numbers it is.)
pub fn date_number(date: Date) -> u32
    ensures { result ≡ date_number date }
{
    let number = date.year as u32 * 10_000 + date.month as u32 * 100 + date.day as u32;
    if date.leap {
        return 100_000_000 + number;
    }
    number
}
