// The means of both calendars.
use months_rules::Calendar;
use std::{fmt, io};
use units::Byo;

// A moment in whole fen, and the byo past them.
#[derive(Clone, Copy)]
struct FenAndByo(Byo);

impl fmt::Display for FenAndByo {
    fn fmt<W: fmt::Write>(&self, f: &mut fmt::Formatter<W>) -> fmt::Result {
        let moment = self.0;
        write!(f, "{} {}", units::byo_to_fen(moment).0, moment.0 % 8)
    }
}

fn mid_term(number: u32) -> FenAndByo {
    FenAndByo(Byo(senmyo_means::MID_TERMS.moment_of(number)))
}

// The number of the mid-term that is Rain Water of a year.
fn rain_water(calendar: Calendar, year: u16) -> u64 {
    u64::from(calendar.numbers().rain_water) + 12 * u64::from(year)
}

pub fn print_senmyo(rt: &impl Print) -> io::Result<()> {
    println!(rt;
        "Senmyo, mid-terms 1 and 12, in fen and byo: {} {}",
        mid_term(1),
        mid_term(12)
    )?;
    println!(rt;
        "mean new moon 1, mean full moon 0, in fen and byo: {} {}",
        senmyo_means::mean_new_moon(1).0,
        FenAndByo(senmyo_means::mean_full_moon(0))
    )?;
    println!(rt;
        "number of the mid-term that is Rain Water of 822: {}",
        rain_water(Calendar::Senmyo, 822)
    )
}

pub fn print_genka(rt: &impl Print) -> io::Result<()> {
    println!(rt;
        "Genka, new moon 1 in parts, full moon 0 in half parts, day of new moon 752: {} {} {}",
        genka::new_moon(1).0,
        genka::full_moon(0).0,
        genka::NEW_MOONS.day_of(752)
    )?;
    println!(rt;
        "Genka, day of mid-term 7296, number of the mid-term that is Rain Water of 445: {} {}",
        genka::MID_TERMS.day_of(7296),
        rain_water(Calendar::Genka, 445)
    )
}
