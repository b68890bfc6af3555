// The two corrections.
use std::{fmt, io};
use units::{AnomalySecond, Byo};

// The least and the most of a correction at the moments that were tried, and all that it adds and all that it takes off.
#[derive(Clone, Copy, Default)]
struct Extent {
    least: i64,
    most: i64,
    added: u64,
    taken: u64,
}

impl Extent {
    fn with(self, value: i64) -> Extent {
        let size = value.unsigned_abs();
        let (added, taken) = if value < 0 { (0, size) } else { (size, 0) };
        Extent {
            least: self.least.min(value),
            most: self.most.max(value),
            added: self.added.wrapping_add(added),
            taken: self.taken.wrapping_add(taken),
        }
    }
}

impl fmt::Display for Extent {
    fn fmt<W: fmt::Write>(&self, f: &mut fmt::Formatter<W>) -> fmt::Result {
        write!(
            f,
            "{} {} {} {}",
            self.least, self.most, self.added, self.taken
        )
    }
}

fn moon_at(second: u64) -> i64 {
    senmyo_moon::moon_of(AnomalySecond(second))
}

pub fn print_extents(rt: &impl Print) -> io::Result<()> {
    let sun = (0..122_723).map(|place| senmyo_sun::sun_of(Byo(200 * place)));
    println!(rt;
        "Sun, least, most, all that it adds and all that it takes off, every 25 fen of a year: {}",
        sun.fold(Extent::default(), Extent::with)
    )?;
    let moon = (0..46_292).map(|place| moon_at(500 * place));
    println!(rt;
        "Moon, the same, every 5 fen of its period: {}",
        moon.fold(Extent::default(), Extent::with)
    )
}

// Row 7 at its start and at 7465 fen, and the start of row 8; then the starts of lower rows 11 to 14, half an anomaly second late.
pub fn print_rows(rt: &impl Print) -> io::Result<()> {
    println!(rt;
        "Moon, upper row 7 at 0 and 7465 fen, row 8 at 0: {} {} {}",
        moon_at(5_040_000),
        moon_at(5_786_500),
        moon_at(5_880_000)
    )?;
    println!(rt;
        "Moon, lower rows 11 to 14 at 0 fen: {} {} {} {}",
        moon_at(19_972_910),
        moon_at(20_812_910),
        moon_at(21_652_910),
        moon_at(22_492_910)
    )
}

fn change_at(second: u64) -> i64 {
    senmyo_moon::change_of(AnomalySecond(second))
}

// 7465 fen of lower row 7 fall between two anomaly seconds.
pub fn print_changes(rt: &impl Print) -> io::Result<()> {
    println!(rt;
        "Moon's change in a day, upper row 7 just before and at 7465 fen, row 14 at 0, then lower row 7 on both sides of 7465, row 14 at 0: {} {} {} {} {} {}",
        change_at(5_786_499),
        change_at(5_786_500),
        change_at(10_920_000),
        change_at(17_359_409),
        change_at(17_359_410),
        change_at(22_492_910)
    )
}
