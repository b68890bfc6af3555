// What the program `year` prints. What is proved of it is the refusal that it answers.
#![tactic(auto)]

ghost use Rattle.std.specs.Prelude.{◌≡◌, IfOk};
ghost use Rattle.answers.specs.Answer.{told_as};
ghost use Rattle.year_print.specs.Paper.{answer_of, answer_refusal, refusal_number};

use calendar::{Month, Refusal, Year};
use std::{fmt, io};

// A year with its calendar and number. It is printed as its head: calendar, number, days and leap number.
#[derive(Clone, Copy, Debug, PartialEq, Eq)]
pub struct NamedYear {
    pub calendar: u64,
    pub number: u64,
    pub year: Year,
}

impl fmt::Display for NamedYear {
    fn fmt<W: fmt::Write>(&self, f: &mut fmt::Formatter<W>) -> fmt::Result {
        let NamedYear {
            calendar,
            number,
            year,
        } = self;
        write!(f, "{calendar} {number} {} {}", year.days, year.leap)
    }
}

// A month's line: number, leap or not, length, first day and its place in the cycle of sixty.
#[derive(Clone, Copy)]
struct Row(Month);

impl fmt::Display for Row {
    fn fmt<W: fmt::Write>(&self, f: &mut fmt::Formatter<W>) -> fmt::Result {
        let month = self.0;
        write!(
            f,
            "{} {} {} {} {}",
            month.number,
            u8::from(month.leap),
            month.length,
            month.first_day,
            calendar::cycle_of(u64::from(month.first_day))
        )
    }
}

fn print_months(rt: &impl Print, year: Year) -> io::Result<()> {
    for month in year.listed() {
        println!(rt; "{}", Row(*month))?;
    }
    Ok(())
}

// The year that the first line of the bytes asks for.
fn asked(bytes: &[u8]) -> Result<NamedYear, Refusal>
    ensures { told_as (λ named. named.year) result ≡ answer_of bytes.now }
{
    let line = year_line::line_of(bytes)?;
    let calendar = u64::from(line.calendar);
    let number = u64::from(line.year);
    let year = calendar::year_of(calendar, number)?;
    Ok(NamedYear {
        calendar,
        number,
        year,
    })
}

// Prints the year that the first line of the bytes asks for, a line for each month, or the refusal. Tells what was refused, if anything.
#[tactic(auto, unfolding(crate::specs::Paper::answer_refusal))]
pub fn print_answer(rt: &impl Print, bytes: &[u8]) -> io::Result<Option<Refusal>>
    ensures { IfOk result (λ refused. refusal_number refused ≡ answer_refusal bytes.now) }
{
    match asked(bytes) {
        Ok(named) => {
            println!(rt; "{named}")?;
            print_months(rt, named.year)?;
            Ok(None)
        }
        Err(refusal) => {
            println!(rt; "{refusal}")?;
            Ok(Some(refusal))
        }
    }
}
