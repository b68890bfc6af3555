// The work and its edges, roundings and units.
use months_rules::Calendar;
use std::io;
use units::{Byo, Fen};

fn year_refusal(calendar: u64, year: u64) -> u8 {
    check_print::refusal_number(calendar::year_of(calendar, year).err())
}

pub fn print_calendars(rt: &impl Print) -> io::Result<()> {
    let senmyo = Calendar::Senmyo.numbers();
    let genka = Calendar::Genka.numbers();
    println!(rt;
        "Senmyo, first and last year, whole days of day 0: {} {} {}",
        senmyo.first_year, senmyo.last_year, senmyo.day_zero
    )?;
    println!(rt;
        "Genka: {} {} {}",
        genka.first_year, genka.last_year, genka.day_zero
    )
}

pub fn print_edges(rt: &impl Print) -> io::Result<()> {
    println!(rt;
        "Senmyo, 821, 822, 1684 and 1685: {} {} {} {}",
        year_refusal(1, 821),
        year_refusal(1, 822),
        year_refusal(1, 1684),
        year_refusal(1, 1685)
    )?;
    println!(rt;
        "Genka, 444, 445, 697 and 698: {} {} {} {}",
        year_refusal(2, 444),
        year_refusal(2, 445),
        year_refusal(2, 697),
        year_refusal(2, 698)
    )?;
    println!(rt;
        "cycle of days 0, 10 and 11: {} {} {}",
        calendar::cycle_of(0),
        calendar::cycle_of(10),
        calendar::cycle_of(11)
    )
}

pub fn print_roundings(rt: &impl Print) -> io::Result<()> {
    println!(rt;
        "3/2, 1/2, -1/2 and -3/2, rounded: {} {} {} {}",
        numbers::nearest_of(3, 2),
        numbers::nearest_of(1, 2),
        numbers::nearest_of(-1, 2),
        numbers::nearest_of(-3, 2)
    )?;
    println!(rt;
        "3/2 and -3/2, floors: {} {}",
        numbers::floor_of(3, 2),
        numbers::floor_of(-3, 2)
    )
}

pub fn print_units(rt: &impl Print) -> io::Result<()> {
    println!(rt;
        "a fen in byo, 8 byo in anomaly seconds, 15 byo in fen: {} {} {}",
        units::fen_to_byo(Fen(1)).0,
        units::byo_to_anomaly_seconds(Byo(8)).0,
        units::byo_to_fen(Byo(15)).0
    )?;
    println!(rt;
        "8399 and 8400 fen, days and fen of the day: {} {} {} {}",
        units::whole_days(Fen(8399)),
        units::fen_of_day(Fen(8399)).0,
        units::whole_days(Fen(8400)),
        units::fen_of_day(Fen(8400)).0
    )
}
