#![tactic(auto)]

ghost use Rattle.std.specs.Prelude.{◌≡◌};
ghost use Rattle.answers.specs.Answer.{told};
ghost use Rattle.calendar_hours.specs.Hours.{hour_at, hours_from, hours_of};
ghost use Rattle.calendar_hours.specs.Room.{Numbered, AllNumbered};

use answers::Refusal;
use months_rules::Calendar;
use senmyo_hours::Times;
use units::{Fen, Ke};

// A moment by its day number, the fen of that day, and the ke that it falls in.
#[derive(Clone, Copy, Debug, PartialEq, Eq)]
pub struct Hour {
    pub day: u32,
    pub fen: Fen,
    pub ke: Ke,
}

// How long an eclipse lasts, in fen, and the same as ke and the fen over; its start, middle and end.
#[derive(Clone, Copy, Debug, PartialEq, Eq)]
pub struct Hours {
    pub length: Fen,
    pub ke: Ke,
    pub over: Fen,
    pub start: Hour,
    pub middle: Hour,
    pub end: Hour,
}

fn hour_at(moment: Fen) -> Hour
    requires { Numbered moment }
    ensures { result ≡ hour_at moment }
{
    let day_zero = Calendar::Senmyo.numbers().day_zero;
    let day = (units::whole_days(moment) - day_zero) as u32;
    let fen = units::fen_of_day(moment);
    let ke = units::whole_ke(fen);
    Hour { day, fen, ke }
}

fn hours_from(times: Times) -> Hours
    requires { AllNumbered times }
    ensures { result ≡ hours_from times }
{
    let length = times.length;
    let ke = units::whole_ke(length);
    let over = units::fen_over_ke(length);
    let start = hour_at(times.start);
    let middle = hour_at(times.middle);
    let end = hour_at(times.end);
    Hours {
        length,
        ke,
        over,
        start,
        middle,
        end,
    }
}

// The hours of a month's lunar eclipse.
pub fn hours_of(calendar: u64, year: u64, month: u64, leap: bool) -> Result<Hours, Refusal>
    ensures { told result ≡ hours_of calendar year month leap }
{
    let found = calendar_eclipses::asked_eclipse(calendar, year, month, leap)?;
    let Some(times) = senmyo_hours::eclipse_at(found) else {
        return Err(Refusal::NoEclipse);
    };
    Ok(hours_from(times))
}
