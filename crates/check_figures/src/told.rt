// Days and dates that were asked for, told by their numbers or by the refusal.
use calendar::{Date, Refusal};
use std::fmt;

pub fn day_or_refusal(answer: Result<u32, Refusal>) -> u32 {
    answer.unwrap_or_else(|refusal| u32::from(refusal.number()))
}

// A date's year, month, leap or not, and day, or the refusal's number.
#[derive(Clone, Copy)]
pub struct DateOrRefusal(pub Result<Date, Refusal>);

impl fmt::Display for DateOrRefusal {
    fn fmt<W: fmt::Write>(&self, f: &mut fmt::Formatter<W>) -> fmt::Result {
        match self.0 {
            Ok(date) => write!(
                f,
                "{} {} {} {}",
                date.year,
                date.month,
                u8::from(date.leap),
                date.day
            ),
            Err(refusal) => write!(f, "{}", refusal.number()),
        }
    }
}

pub fn date_of(calendar: u64, day: u64) -> DateOrRefusal {
    DateOrRefusal(calendar::date_of(calendar, day))
}
