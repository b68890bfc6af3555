// Months and leap.
use crate::told;
use std::io;
use units::Fen;

// When a new moon is put off to the next day. Then the days of the solstices before 937 and 1575, each in the month before the one that the last
// mean new moon opens; of mid-term 8 of 833, which falls before its month's new moon; and the first of 445's leap month, which has a mid-term by
// the count of 19 years.
pub fn print_days(rt: &impl Print) -> io::Result<()> {
    println!(rt;
        "a new moon at fen 6299 and 6300 of day 0, its day: {} {}",
        senmyo::advanced_day(Fen(6299)),
        senmyo::advanced_day(Fen(6300))
    )?;
    println!(rt;
        "dates of days 2063282, 2296308, 2025571 and, in Genka, 1883766: {} {} {} {}",
        told::date_of(1, 2_063_282),
        told::date_of(1, 2_296_308),
        told::date_of(1, 2_025_571),
        told::date_of(2, 1_883_766)
    )
}
