ghost use Rattle.months_rules.specs.Rules.{rules_of};
ghost use Rattle.calendar_range.specs.Room.{CoveredYear};

use months_rules::Calendar;

// A covered year of a calendar.
#[derive(Clone, Copy, Debug, PartialEq, Eq)]
pub struct KnownYear {
    pub calendar: Calendar,
    pub year: u16,
    ghost covered: { CoveredYear (rules_of calendar) year },
}
