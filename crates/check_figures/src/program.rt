// What the program `year` prints, and lines of eclipses and instants.
use std::io;

pub fn print_program(rt: &impl Print) -> io::Result<()> {
    check_print::print_answers(
        rt,
        &[
            b"1 1522\n",
            b"000000001 000000821\n",
            b"3 1522\n1 1522\n",
            b"1 1522",
            b"1 0000001522\n",
        ],
    )?;
    check_print::print_eclipses(rt, 1, 824)?;
    check_print::print_eclipses(rt, 1, 1522)?;
    check_print::print_instants(rt, 1, 1522)?;
    check_print::print_instants(rt, 2, 643)?;
    Ok(())
}
