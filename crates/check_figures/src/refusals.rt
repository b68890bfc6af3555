// What days, dates, eclipses and hours are refused with.
use crate::told;
use std::io;

fn day_of(calendar: u64, year: u64, month: u64, leap: bool, day: u64) -> u32 {
    told::day_or_refusal(calendar::day_of(calendar, year, month, leap, day))
}

pub fn print_dates_refused(rt: &impl Print) -> io::Result<()> {
    println!(rt;
        "calendar 3, year 0, month 0, day 0, then with the first of them put right, and so on: {} {} {} {} {}",
        day_of(3, 0, 0, false, 0),
        day_of(1, 0, 0, false, 0),
        day_of(1, 1522, 0, false, 0),
        day_of(1, 1522, 1, false, 0),
        day_of(1, 1522, 1, false, 29)
    )?;
    println!(rt;
        "1522 month 1 day 30, month 13, leap month 1: {} {} {}",
        day_of(1, 1522, 1, false, 30),
        day_of(1, 1522, 13, false, 1),
        day_of(1, 1522, 1, true, 1)
    )
}

pub fn print_days_refused(rt: &impl Print) -> io::Result<()> {
    println!(rt;
        "day 0 in calendar 3; in each calendar the day before the first covered, the first, the last, the day after: {} {} {} {} {} {} {} {} {}",
        told::date_of(3, 0),
        told::date_of(1, 2_021_319),
        told::date_of(1, 2_021_320),
        told::date_of(1, 2_336_528),
        told::date_of(1, 2_336_529),
        told::date_of(2, 1_883_617),
        told::date_of(2, 1_883_618),
        told::date_of(2, 1_976_048),
        told::date_of(2, 1_976_049)
    )
}

fn eclipse_refusal(calendar: u64, year: u64, month: u64) -> u8 {
    check_print::refusal_number(calendar::eclipse_of(calendar, year, month, false).err())
}

pub fn print_eclipses_refused(rt: &impl Print) -> io::Result<()> {
    println!(rt;
        "eclipses, calendar 3, Genka, 821, 1522 month 13 and month 2: {} {} {} {} {}",
        eclipse_refusal(3, 0, 0),
        eclipse_refusal(2, 0, 0),
        eclipse_refusal(1, 821, 0),
        eclipse_refusal(1, 1522, 13),
        eclipse_refusal(1, 1522, 2)
    )
}

fn hours_refusal(calendar: u64, year: u64, month: u64) -> u8 {
    check_print::refusal_number(calendar::hours_of(calendar, year, month, false).err())
}

pub fn print_hours_refused(rt: &impl Print) -> io::Result<()> {
    println!(rt;
        "hours, calendar 3, Genka, 821, 1522 month 13, month 1 and month 2: {} {} {} {} {} {}",
        hours_refusal(3, 0, 0),
        hours_refusal(2, 0, 0),
        hours_refusal(1, 821, 0),
        hours_refusal(1, 1522, 13),
        hours_refusal(1, 1522, 1),
        hours_refusal(1, 1522, 2)
    )
}
