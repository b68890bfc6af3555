#![tactic(auto)]

ghost use Rattle.std.specs.Prelude.{◌≡◌};
ghost use Rattle.answers.specs.Answer.{told};
ghost use Rattle.months_rules.specs.Rules.{rules_of};
ghost use Rattle.calendar_moons.specs.Instants.{instant_in, new_moon_of, full_moon_of, moons_of};
ghost use Rattle.calendar_moons.specs.Room.{Dated};

use answers::Refusal;
use months_rules::{Calendar, Moment};

// The new and the full moon of a month, as Julian dates.
#[derive(Clone, Copy, Debug, PartialEq)]
pub struct Moons {
    pub new: f64,
    pub full: f64,
}

// The Julian date of a moment.
fn instant_of(calendar: Calendar, moment: Moment) -> f64
    requires { Dated (rules_of calendar) moment }
    ensures { result ≡ instant_in (rules_of calendar) moment }
{
    let day = moment.units / (moment.of_day as u64) - calendar.numbers().day_zero;
    let part = moment.units % (moment.of_day as u64);
    julian::julian_date(day as u32, part as u32, moment.of_day)
}

// The new moon of a month, as a Julian date.
pub fn new_moon_of(calendar: u64, year: u64, month: u64, leap: bool) -> Result<f64, Refusal>
    ensures { told result ≡ new_moon_of calendar year month leap }
{
    let (calendar, found) = calendar_month::asked_moon(calendar, year, month, leap)?;
    Ok(instant_of(calendar, calendar.new_moon(found)))
}

// The full moon of a month, as a Julian date. (One function for both moons would take the one that is asked for as a closure, and be longer than these two lines.)
pub fn full_moon_of(calendar: u64, year: u64, month: u64, leap: bool) -> Result<f64, Refusal>
    ensures { told result ≡ full_moon_of calendar year month leap }
{
    let (calendar, found) = calendar_month::asked_moon(calendar, year, month, leap)?;
    Ok(instant_of(calendar, calendar.full_moon(found)))
}

// Both moons of a month.
pub fn moons_of(calendar: u64, year: u64, month: u64, leap: bool) -> Result<Moons, Refusal>
    ensures { told result ≡ moons_of calendar year month leap }
{
    let (calendar, found) = calendar_month::asked_moon(calendar, year, month, leap)?;
    Ok(Moons {
        new: instant_of(calendar, calendar.new_moon(found)),
        full: instant_of(calendar, calendar.full_moon(found)),
    })
}
