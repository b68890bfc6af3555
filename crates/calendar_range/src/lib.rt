// What years are covered: the year that a call asks for, or the refusal.
#![tactic(auto)]

ghost use Rattle.std.specs.Prelude.{◌≡◌, ◌&&◌};
ghost use Rattle.calendar_range.specs.Range.{is_calendar, rules_for, is_covered, year_asked};
ghost use Rattle.calendar_range.specs.Answers.{year_means};

mod known;

use answers::Refusal;
pub use known::KnownYear;
use months_rules::Calendar;

pub fn asked_year(calendar: u64, year: u64) -> Result<KnownYear, Refusal>
    ensures { year_means result ≡ year_asked calendar year }
{
    let calendar = Calendar::try_from(calendar)?;
    let numbers = calendar.numbers();
    if year < numbers.first_year as u64 {
        return Err(Refusal::YearNotCovered);
    }
    if (numbers.last_year as u64) < year {
        return Err(Refusal::YearNotCovered);
    }
    let year = year as u16;
    Ok(KnownYear { calendar, year })
}

// Whether the numbers name a covered year.
pub fn is_covered(calendar: u64, year: u64) -> bool
    ensures { result ≡ is_calendar calendar && is_covered (rules_for calendar) year }
{
    asked_year(calendar, year).is_ok()
}
