#![tactic(auto)]

ghost use Rattle.std.specs.Prelude.{◌≡◌, ◌+◌, ◌*◌, ◌<◌};
ghost use Rattle.answers.specs.Answer.{told};
ghost use Rattle.record_fields.specs.Tagged.{field_bytes};
ghost use Rattle.record_fields.specs.Fields.{layout, long_bit, long_months_of};
ghost use Rattle.record_fields.specs.Room.{fields_of};

use answers::Refusal;
use calendar_year::Month;

// What a year's record says. A leap number is 0 for none, as its byte is (`layout`), and as a year's is (`year_in`).
#[derive(Clone, Copy, Debug, PartialEq, Eq)]
pub struct Fields {
    pub calendar: u8,
    pub year: u16,
    pub first_day: u32,
    pub leap: u8,
    pub long_months: u16,
}

// One more month before those that the bits tell of.
#[tactic(auto, unfolding(crate::specs::Fields::long_bit))]
fn with_month(month: Month, bits: u16) -> u16
    requires { bits < 32768 }
    ensures { result ≡ long_bit month + 2 * bits }
{
    u16::from(month.length == 30) + 2 * bits
}

fn long_months(months: [Month; 13]) -> u16
    ensures { result ≡ long_months_of months }
{
    months
        .iter()
        .rev()
        .fold(0, |bits, month| with_month(*month, bits))
}

// The fields that the rule gives a year.
#[tactic(auto, using(crate::proofs::CoveredFields::telling))]
pub fn fields_of(calendar: u64, year: u64) -> Result<Fields, Refusal>
    ensures { told result ≡ fields_of calendar year }
{
    let listed = calendar_year::year_of(calendar, year)?;
    Ok(Fields {
        calendar: calendar as u8,
        year: year as u16,
        first_day: listed.months[0].first_day,
        leap: listed.leap,
        long_months: long_months(listed.months),
    })
}

// Each field as its tag, its length in two bytes, and its number.
#[tactic(auto, unfolding(crate::specs::Tagged::field_bytes, crate::specs::Tagged::bytes_of))]
pub fn bytes_of(fields: Fields) -> [u8; 25]
    ensures { result ≡ field_bytes layout fields }
{
    let calendar = fields.calendar;
    let [year_high, year_low] = fields.year.to_be_bytes();
    let [day_0, day_1, day_2, day_3] = fields.first_day.to_be_bytes();
    let leap = fields.leap;
    let [long_high, long_low] = fields.long_months.to_be_bytes();
    [
        1, 0, 1, calendar, // the calendar
        2, 0, 2, year_high, year_low, // the year
        3, 0, 4, day_0, day_1, day_2, day_3, // its first day
        4, 0, 1, leap, // its leap number
        5, 0, 2, long_high, long_low, // its long months
    ]
}
