// Hours of lunar eclipses.
use calendar::Hour;
use std::{fmt, io};

// A moment by its day, fen and ke.
#[derive(Clone, Copy)]
struct Moment(Hour);

impl fmt::Display for Moment {
    fn fmt<W: fmt::Write>(&self, f: &mut fmt::Formatter<W>) -> fmt::Result {
        let hour = self.0;
        write!(f, "{} {} {}", hour.day, hour.fen.0, hour.ke.0)
    }
}

// What the hours of an eclipse show, its month, and the hours.
fn print_hours_of(
    rt: &impl Print,
    shown: &str,
    year: u64,
    month: u64,
    leap: bool,
) -> io::Result<()> {
    let Ok(hours) = calendar::hours_of(1, year, month, leap) else {
        return Ok(());
    };
    let kind = if leap { "leap month" } else { "month" };
    println!(rt;
        "hours, {shown}, {year} {kind} {month}: {} {} {} {} {} {}",
        hours.length.0,
        hours.ke.0,
        hours.over.0,
        Moment(hours.start),
        Moment(hours.middle),
        Moment(hours.end)
    )
}

// The worked case; rows 7 and 14 of either half of the Moon's table; days before and after; the longest and the least.
pub fn print_hours(rt: &impl Print) -> io::Result<()> {
    let shown = [
        ("the worked case", 1522, 2, false),
        ("lower row 14, total, from the day before", 918, 1, false),
        ("upper row 14, total, to the day after", 1038, 2, false),
        ("upper row 7 before 7465", 1636, 7, false),
        ("upper row 7 past 7465, to the day after", 1333, 3, false),
        ("lower row 7 before 7465, 14 parts strong", 1465, 9, false),
        ("lower row 7 past 7465", 1171, 6, false),
        ("14 parts weak, from the day before", 890, 8, false),
        ("13 parts weak, to 19 fen of the day after", 1066, 2, false),
        ("the longest, to the day after", 1667, 10, false),
        ("0 parts strong, the least length above 0", 1365, 2, false),
        ("0 parts weak, no length", 1300, 7, true),
    ];
    for (what, year, month, leap) in shown {
        print_hours_of(rt, what, year, month, leap)?;
    }
    Ok(())
}
