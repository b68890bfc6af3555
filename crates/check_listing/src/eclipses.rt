// A line for each lunar eclipse of the covered years of Senmyo.
use crate::asked::print_each_asked;
use std::io;

pub fn print_eclipses(rt: &impl Print) -> io::Result<()> {
    print_each_asked(|number| check_print::print_eclipses(rt, 1, number))
}
