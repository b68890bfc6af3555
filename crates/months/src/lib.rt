#![tactic(auto)]

ghost use Rattle.std.specs.Prelude.{◌≡◌};
ghost use Rattle.months_rules.specs.Rules.{senmyo, rules_of};
ghost use Rattle.months_rules.specs.FirstMonths.{begun, month_of};
ghost use Rattle.months.specs.Room.{last_term_of, Starting, Ending};
ghost use Rattle.months.specs.Year.{MonthDays};

use genka::NEW_MOONS;
use months_rules::{Begun, Calendar};

// The last mid-term by a month's end, and whether the month is leap: then it falls before the month's start.
#[derive(Clone, Copy, Debug, PartialEq, Eq)]
pub struct LastTerm {
    pub term: u32,
    pub leap: bool,
}

// The month of Senmyo that has a day: the last that may begin by then, or the one before.
fn senmyo_month(day: u32) -> Begun
    ensures { result ≡ begun senmyo (month_of senmyo day) }
{
    let latest = Calendar::Senmyo.begin(senmyo::latest_month(day));
    if latest.start <= day as u64 {
        return latest;
    }
    Calendar::Senmyo.begin(latest.month - 1)
}

// The month that has a day.
#[tactic(auto, unfolding(months_rules::specs::Rules::rules_of))]
pub fn month_of(calendar: Calendar, day: u32) -> Begun
    ensures { result ≡ begun (rules_of calendar) (month_of (rules_of calendar) day) }
{
    match calendar {
        Calendar::Senmyo => senmyo_month(day),
        Calendar::Genka => {
            let last = NEW_MOONS.last_by(day);
            Begun {
                month: last.number,
                start: last.day,
            }
        }
    }
}

// The month of Senmyo that has a day, by its number alone: nearly always the bounds of the corrections tell it, without its new moon.
fn senmyo_month_by(day: u32) -> u32
    ensures { result ≡ month_of senmyo day }
{
    let latest = senmyo::latest_month(day);
    if senmyo::sure_month(day) == latest {
        return latest;
    }
    if senmyo::new_moon_day(latest) <= day as u64 {
        return latest;
    }
    latest - 1
}

// The month that has a day, by its number alone. (`month_of` works out its first day too, which takes a new moon.)
#[tactic(auto, unfolding(months_rules::specs::Rules::rules_of))]
pub fn month_by(calendar: Calendar, day: u32) -> u32
    ensures { result ≡ month_of (rules_of calendar) day }
{
    match calendar {
        Calendar::Senmyo => senmyo_month_by(day),
        Calendar::Genka => NEW_MOONS.last_by(day).number,
    }
}

// The last mid-term by the end of a month, which is the eve of `next`.
pub fn last_term_by(calendar: Calendar, month: Begun, next: u64) -> LastTerm
    requires { Ending (rules_of calendar) month next }
    ensures { result ≡ last_term_of (rules_of calendar) month.month }
{
    let last = calendar.mid_term_by((next - 1) as u32);
    LastTerm {
        term: last.number,
        leap: last.day < month.start,
    }
}

// The same of a month of 29 or 30 days whose end is not known: that matters only to a mid-term on day 30.
pub fn last_term_of(calendar: Calendar, month: Begun) -> LastTerm
    requires starting { Starting (rules_of calendar) month }
    requires month_days { MonthDays (rules_of calendar) month.month }
    ensures { result ≡ last_term_of (rules_of calendar) month.month }
{
    let last = calendar.mid_term_by((month.start + 29) as u32);
    let term = last.number;
    let day = last.day;
    if day < month.start + 29 {
        return LastTerm {
            term,
            leap: day < month.start,
        };
    }
    if day < calendar.begin(month.month + 1).start {
        return LastTerm { term, leap: false };
    }
    LastTerm {
        term: term - 1,
        leap: true,
    }
}
