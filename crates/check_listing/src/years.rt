// A line for each covered year: calendar, year, days, leap number, first day, and the lengths of its months.
use crate::asked::print_each_asked;
use std::io;

fn print_years_of(rt: &impl Print, calendar: u64) -> io::Result<()> {
    print_each_asked(|number| check_print::print_summary(rt, calendar, number))
}

pub fn print_years(rt: &impl Print) -> io::Result<()> {
    print_years_of(rt, 1)?;
    print_years_of(rt, 2)
}
