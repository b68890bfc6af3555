// A year and its months.
#![tactic(auto)]

ghost use Rattle.std.specs.Prelude.{◌≡◌, ◌+◌, ◌-◌, ◌<◌, take};
ghost use Rattle.answers.specs.Answer.{told};
ghost use Rattle.months_rules.specs.Rules.{rules_of};
ghost use Rattle.months.specs.Room.{CoveredMonth};
ghost use Rattle.calendar_year.specs.Years.{listed, year_in, year_of};
ghost use Rattle.calendar_year.specs.Room.{CoveredMonths, listed_behind, listing};

use answers::Refusal;
use calendar_range::KnownYear;
use months_rules::{Begun, Calendar};

// A month of a year, its first day by day number.
#[derive(Clone, Copy, Debug, Default, PartialEq, Eq)]
pub struct Month {
    pub number: u8,
    pub leap: bool,
    pub length: u8,
    pub first_day: u32,
}

// A year: its days, the number of its leap month or 0, and its months in order. Places after the last month hold zero, as `year_in` has them and `sf_year`
// writes them.
#[derive(Clone, Copy, Debug, PartialEq, Eq)]
pub struct Year {
    pub days: u16,
    pub leap: u8,
    pub count: u8,
    pub months: [Month; 13],
}

impl Year {
    // The months that are listed.
    pub fn listed(&self) -> &[Month]
        ensures { result.now ≡ take self.now.count self.now.months }
    {
        &self.months[..usize::from(self.count).min(13)]
    }

    // One more month, behind those that are listed.
    fn list(&mut self, month: Month)
        requires { self.old.count < 13 }
        ensures { self.new ≡ listed_behind month self.old }
    {
        self.months[self.count as usize] = month;
        self.count += 1;
        if month.leap {
            self.leap = month.number;
        }
    }
}

fn listed_month(calendar: Calendar, month: Begun, next: u64) -> Month
    requires covered_month { CoveredMonth (rules_of calendar) month }
    requires next_value { next ≡ (rules_of calendar).start (month.month + 1) }
    ensures { result ≡ listed (rules_of calendar) month.month }
{
    let last = months::last_term_by(calendar, month, next);
    Month {
        number: calendar.term_number(last.term),
        leap: last.leap,
        length: (next - month.start) as u8,
        first_day: (month.start - calendar.numbers().day_zero) as u32,
    }
}

// The year of so many days whose months go from a month to the eve of another.
fn list_to(calendar: Calendar, days: u16, first: Begun, end: Begun) -> Year
    requires { CoveredMonths (rules_of calendar) first end }
    ensures { result ≡ listing (rules_of calendar) days first.month (end.month - first.month) }
{
    let mut year = Year {
        days,
        leap: 0,
        count: 0,
        months: [Month::default(); 13],
    };
    let mut month = first;
    for number in first.month + 1..end.month {
        let next = calendar.begin(number);
        year.list(listed_month(calendar, month, next.start));
        month = next;
    }
    year.list(listed_month(calendar, month, end.start));
    year
}

fn year_in(known: KnownYear) -> Year
    ensures { result ≡ year_in (rules_of known.calendar) known.year }
{
    let calendar = known.calendar;
    let first = months::month_of(calendar, calendar.term_day(known.year, 0));
    let next = months::month_of(calendar, calendar.term_day(known.year, 12));
    let days = (next.start - first.start) as u16;
    list_to(calendar, days, first, next)
}

// The months of a year.
pub fn year_of(calendar: u64, year: u64) -> Result<Year, Refusal>
    ensures { told result ≡ year_of calendar year }
{
    let known = calendar_range::asked_year(calendar, year)?;
    Ok(year_in(known))
}
