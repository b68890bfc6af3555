#![tactic(auto)]

ghost use Rattle.std.specs.Prelude.{◌≡◌, ◌+◌, ◌*◌, ◌<◌, ◌^◌};
ghost use Rattle.answers.specs.Answer.{told};
ghost use Rattle.cycles.specs.Cycles.{last_by, dated};
ghost use Rattle.months_rules.specs.Rules.{mid, term_number, rules_of};
ghost use Rattle.months_rules.specs.Numbered.{calendar_of};
ghost use Rattle.months_rules.specs.FirstMonths.{begun};
ghost use Rattle.months_rules.specs.Room.{numbers_of, term_year, CoveredTerm};

use answers::Refusal;
use cycles::{Cycle, Dated};
use genka::{HALF_PARTS_IN_DAY, NEW_MOONS};
use units::FEN_IN_DAY;

#[derive(Clone, Copy, Debug, PartialEq, Eq)]
pub enum Calendar {
    Senmyo,
    Genka,
}

// What is told of a calendar by a number.
#[derive(Clone, Copy, Debug, PartialEq, Eq)]
pub struct CalendarNumbers {
    // The covered years.
    pub first_year: u16,
    pub last_year: u16,
    // Their first day, and the day after their last, by day number.
    pub first_day: u64,
    pub after_last: u64,
    // The whole days, from the calendar's origin, of day number 0.
    pub day_zero: u64,
    pub terms: Cycle,
    // The number of the month whose mid-term is mid-term 0.
    pub zeroth_number: u64,
    // The mid-term that is the Rain Water of year 0. Each next year's comes twelve later.
    pub rain_water: u32,
}

// A month by the number of its new moon, with the day on which it starts. What takes one takes its calendar beside it: each asks another thing of the two
// (`Starting`, `Ending`, `CoveredMonth`), so that no one type would hold what they ask.
#[derive(Clone, Copy, Debug, PartialEq, Eq)]
pub struct Begun {
    pub month: u32,
    pub start: u64,
}

// A moment, in so many units from the calendar's origin, of which a day has so many.
#[derive(Clone, Copy, Debug, PartialEq, Eq)]
pub struct Moment {
    pub units: u64,
    pub of_day: u32,
}

// Mid-term 0 is a solstice, of month 11. By 822, 7,070,138 years are accumulated; Rain Water is two mid-terms after the solstice.
const SENMYO: CalendarNumbers = CalendarNumbers {
    first_year: 822,
    last_year: 1684,
    first_day: 2_021_320,
    after_last: 2_336_529,
    day_zero: 2_580_308_749,
    terms: senmyo_means::MID_TERMS,
    zeroth_number: 11,
    rain_water: 12 * (7_070_138 - 822) + 2,
};

// Mid-term 0 is a Rain Water, of month 1, 5,260 years before year 0.
const GENKA: CalendarNumbers = CalendarNumbers {
    first_year: 445,
    last_year: 697,
    first_day: 1_883_618,
    after_last: 1_976_049,
    day_zero: 200_089,
    terms: genka::MID_TERMS,
    zeroth_number: 1,
    rain_water: 12 * 5260,
};

// The calendars by number.
impl TryFrom<u64> for Calendar {
    type Error = Refusal;

    ghost try_from_gives = { λ number asked. told asked ≡ calendar_of number };

    fn try_from(number: u64) -> Result<Self, Refusal> {
        match number {
            1 => Ok(Calendar::Senmyo),
            2 => Ok(Calendar::Genka),
            _ => Err(Refusal::NoSuchCalendar),
        }
    }
}

// The mid-term of a year that comes `after` the Rain Water by so many.
fn term_of(numbers: CalendarNumbers, year: u16, after: u8) -> u32
    requires { numbers.rain_water < 2 ^ 27 }
    ensures { result ≡ numbers.rain_water + 12 * year + after }
{
    numbers.rain_water + 12 * (year as u32) + (after as u32)
}

// Where a way names its calendar's cycle, the compiler divides by constants alone; one way for both would divide by a number that is read.
impl Calendar {
    pub fn numbers(self) -> CalendarNumbers
        ensures { result ≡ numbers_of (rules_of self) }
    {
        match self {
            Calendar::Senmyo => SENMYO,
            Calendar::Genka => GENKA,
        }
    }

    // The number of the month that has a mid-term.
    pub fn term_number(self, term: u32) -> u8
        ensures { result ≡ term_number (rules_of self) term }
    {
        ((term as u64 + self.numbers().zeroth_number - 1) % 12 + 1) as u8
    }

    // The last mid-term by the end of a day, with its own day, both in whole days from the calendar's origin.
    #[tactic(auto, unfolding(crate::specs::Rules::rules_of))]
    pub fn mid_term_by(self, day: u32) -> Dated
        ensures { result ≡ dated (rules_of self).terms (last_by (rules_of self).terms day) }
    {
        match self {
            Calendar::Senmyo => SENMYO.terms.last_by(day),
            Calendar::Genka => GENKA.terms.last_by(day),
        }
    }

    // The day of the mid-term of a year that comes `after` the Rain Water by so many.
    #[tactic(auto, unfolding(crate::specs::Rules::rules_of))]
    pub fn term_day(self, year: u16, after: u8) -> u32
        ensures { result ≡ mid (rules_of self) ((rules_of self).rain_water year + after) }
    {
        match self {
            Calendar::Senmyo => SENMYO.terms.day_of(term_of(SENMYO, year, after)) as u32,
            Calendar::Genka => GENKA.terms.day_of(term_of(GENKA, year, after)) as u32,
        }
    }

    // The year of the month that has a mid-term: each year has twelve, from its Rain Water on.
    pub fn term_year(self, term: u32) -> u16
        requires { CoveredTerm (rules_of self) term }
        ensures { result ≡ term_year (rules_of self) term }
    {
        ((term - self.numbers().rain_water) / 12) as u16
    }

    // A month, by the number of its new moon, with its first day in whole days from the calendar's origin.
    #[tactic(auto, unfolding(crate::specs::Rules::rules_of))]
    pub fn begin(self, month: u32) -> Begun
        ensures { result ≡ begun (rules_of self) month }
    {
        let start = match self {
            Calendar::Senmyo => senmyo::new_moon_day(month),
            Calendar::Genka => NEW_MOONS.day_of(month),
        };
        Begun { month, start }
    }

    // The new moon of a month, before any advance.
    #[tactic(auto, unfolding(crate::specs::Rules::rules_of))]
    pub fn new_moon(self, month: u32) -> Moment
        ensures { result ≡ (rules_of self).new_moon month }
    {
        match self {
            Calendar::Senmyo => Moment {
                units: senmyo::new_moon(month).0,
                of_day: FEN_IN_DAY as u32,
            },
            Calendar::Genka => Moment {
                units: genka::part_to_half_parts(genka::new_moon(month)).0,
                of_day: HALF_PARTS_IN_DAY,
            },
        }
    }

    // The full moon of a month.
    #[tactic(auto, unfolding(crate::specs::Rules::rules_of))]
    pub fn full_moon(self, month: u32) -> Moment
        ensures { result ≡ (rules_of self).full_moon month }
    {
        match self {
            Calendar::Senmyo => Moment {
                units: units::byo_to_fen(senmyo::full_moon_sky(month).moment).0,
                of_day: FEN_IN_DAY as u32,
            },
            Calendar::Genka => Moment {
                units: genka::full_moon(month).0,
                of_day: HALF_PARTS_IN_DAY,
            },
        }
    }
}
