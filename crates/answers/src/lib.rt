// What a call answers: conditions in order with their refusals, and the laws about any list of them. A call gives its answer as a `Result`, whose error is
// the refusal.
#![tactic(auto)]

ghost use Rattle.std.specs.Prelude.{◌≡◌};
ghost use Rattle.answers.specs.Answer.{number_of};

use std::error::Error;
use std::fmt;

// Why a call gives nothing. Each has its number, by which C and the programs tell it.
#[derive(Clone, Copy, Debug, PartialEq, Eq)]
pub enum Refusal {
    NoSuchCalendar = 1,
    YearNotCovered = 2,
    NoSuchMonth = 3,
    NoSuchDay = 4,
    DayNotCovered = 5,
    WrongSize = 6,
    WrongTagOrLength = 7,
    WrongField = 8,
    RunFull = 9,
    RunOfOneYear = 10,
    NoRun = 11,
    NoLine = 12,
    EclipseOfGenka = 13,
    NoEclipse = 14,
}

impl Refusal {
    pub fn number(self) -> u8
        ensures { result ≡ number_of self }
    {
        self as u8
    }
}

impl fmt::Display for Refusal {
    fn fmt<W: fmt::Write>(&self, f: &mut fmt::Formatter<W>) -> fmt::Result {
        write!(f, "refused {}", self.number())
    }
}

impl Error for Refusal {}
