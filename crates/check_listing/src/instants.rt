// The instants of both moons of every month of ten years of each calendar, spread evenly from the first to the last.
ghost use Rattle.std.specs.Prelude.{◌<◌, ◌≤◌};

use std::io;

fn print_ten_years(rt: &impl Print, calendar: u64, first: u64, last: u64) -> io::Result<()>
    requires { (first ≤ last) × (last < 3000) }
{
    for place in 0..10 {
        check_print::print_instants(rt, calendar, first + (last - first) * place / 9)?;
    }
    Ok(())
}

pub fn print_instants(rt: &impl Print) -> io::Result<()> {
    print_ten_years(rt, 1, 822, 1684)?;
    print_ten_years(rt, 2, 445, 697)
}
