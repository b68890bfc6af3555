// What is told of an answer: the refusal's number or 0, and then the numbers of what is given, which are 0 where it is refused.
use calendar::{Date, Refusal};
use std::fmt;

#[derive(Clone, Copy)]
pub struct ToldDay(pub Result<u32, Refusal>);

impl fmt::Display for ToldDay {
    fn fmt<W: fmt::Write>(&self, f: &mut fmt::Formatter<W>) -> fmt::Result {
        match self.0 {
            Ok(day) => write!(f, "0 {day}"),
            Err(refusal) => write!(f, "{} 0", refusal.number()),
        }
    }
}

#[derive(Clone, Copy)]
pub struct ToldDate(pub Result<Date, Refusal>);

impl fmt::Display for ToldDate {
    fn fmt<W: fmt::Write>(&self, f: &mut fmt::Formatter<W>) -> fmt::Result {
        match self.0 {
            Ok(date) => write!(
                f,
                "0 {} {} {} {}",
                date.year,
                date.month,
                u8::from(date.leap),
                date.day
            ),
            Err(refusal) => write!(f, "{} 0 0 0 0", refusal.number()),
        }
    }
}
