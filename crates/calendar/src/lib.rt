// The calls: years, days and dates, eclipses with their hours, and instants. They take calendar, year, month and leap apart, each any number, as C hands
// them on: nothing is known of them together before the month is found.
#![tactic(auto)]

pub use answers::Refusal;
pub use calendar_date::{Date, cycle_of, date_number, date_of, day_of};
pub use calendar_eclipses::{FullMoon, eclipse_of};
pub use calendar_hours::{Hour, Hours, hours_of};
pub use calendar_moons::{Moons, full_moon_of, moons_of, new_moon_of};
pub use calendar_year::{Month, Year, year_of};
pub use senmyo_node::{Grade, Share, Side};
