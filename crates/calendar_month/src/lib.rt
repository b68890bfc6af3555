#![tactic(auto)]

ghost use Rattle.std.specs.Prelude.{◌≡◌, true, ◌+◌, ◌≤◌};
ghost use Rattle.answers.specs.Answer.{told, told_as};
ghost use Rattle.months_rules.specs.Rules.{rules_of};
ghost use Rattle.months_rules.specs.FirstMonths.{begun, month_with};
ghost use Rattle.months.specs.Room.{CoveredMonth};
ghost use Rattle.calendar_month.specs.Asked.{has_day, moon_asked, month_asked};
ghost use Rattle.calendar_month.specs.Room.{in_year};

use answers::Refusal;
use calendar_range::KnownYear;
use months_rules::{Begun, Calendar};

// The month that has a mid-term of a year.
fn month_with(known: KnownYear, after: u8) -> u32
    ensures { result ≡ month_with (rules_of known.calendar) ((rules_of known.calendar).rain_water known.year + after) }
{
    months::month_by(known.calendar, known.calendar.term_day(known.year, after))
}

// The month whose moons are asked for, by the number of its new moon. Month `number` has the mid-term of that number. If the month behind it does not have
// the next one, that is its leap month.
pub fn asked_moon(
    calendar: u64,
    year: u64,
    number: u64,
    leap: bool,
) -> Result<(Calendar, u32), Refusal>
    ensures { told result ≡ moon_asked calendar year number leap }
{
    let known = calendar_range::asked_year(calendar, year)?;
    if number < 1 {
        return Err(Refusal::NoSuchMonth);
    }
    if 12 < number {
        return Err(Refusal::NoSuchMonth);
    }
    let regular = month_with(known, (number - 1) as u8);
    if leap {
        if month_with(known, number as u8) == regular + 1 {
            return Err(Refusal::NoSuchMonth);
        }
        return Ok((known.calendar, regular + 1));
    }
    Ok((known.calendar, regular))
}

// The leap month of a number: the one before the month that has the next mid-term, if it starts after the mid-term of that number.
fn leap_month(known: KnownYear, number: u8) -> Result<Begun, Refusal>
    requires { (1 ≤ number) × (number ≤ 12) }
    ensures { told_as (λ month. (known.calendar, month)) result ≡ in_year begun known.calendar known.year number true }
{
    let calendar = known.calendar;
    let next = months::month_of(calendar, calendar.term_day(known.year, number));
    let before = calendar.begin(next.month - 1);
    if (calendar.term_day(known.year, number - 1) as u64) < before.start {
        return Ok(before);
    }
    Err(Refusal::NoSuchMonth)
}

// A month of a covered year, with its first day.
fn named_month(known: KnownYear, number: u64, leap: bool) -> Result<Begun, Refusal>
    ensures { told_as (λ month. (known.calendar, month)) result ≡ in_year begun known.calendar known.year number leap }
{
    if number < 1 {
        return Err(Refusal::NoSuchMonth);
    }
    if 12 < number {
        return Err(Refusal::NoSuchMonth);
    }
    if leap {
        return leap_month(known, number as u8);
    }
    let day = known.calendar.term_day(known.year, (number - 1) as u8);
    Ok(months::month_of(known.calendar, day))
}

// Whether a month has a day. It has 29 or 30: only of day 30 must one know when the next month starts.
fn has_day(calendar: Calendar, month: Begun, day: u64) -> bool
    requires { CoveredMonth (rules_of calendar) month }
    ensures { result ≡ has_day (rules_of calendar) month.month day }
{
    if day < 1 {
        return false;
    }
    if day < 30 {
        return true;
    }
    let next = calendar.begin(month.month + 1);
    day <= next.start - month.start
}

// The month that a date names, with its first day.
pub fn asked_month(
    calendar: u64,
    year: u64,
    number: u64,
    leap: bool,
    day: u64,
) -> Result<(Calendar, Begun), Refusal>
    ensures { told result ≡ month_asked calendar year number leap day }
{
    let known = calendar_range::asked_year(calendar, year)?;
    let found = named_month(known, number, leap)?;
    if has_day(known.calendar, found, day) {
        return Ok((known.calendar, found));
    }
    Err(Refusal::NoSuchDay)
}
