// Prints the figures and edges of the rules but for the eight worked cases, which are proved (`check_worked`), each worked out by the calls and
// the functions below them. A line has what it is about, a colon, and the numbers; the last lines are as the programs print them.
#![tactic(auto)]

mod corrections;
mod days;
mod eclipses;
mod hours;
mod means;
mod program;
mod records;
mod refusals;
mod runs;
mod told;
mod work;

use std::io;

fn main(rt: HostRuntime) -> io::Result<()> {
    print_rules(&rt)?;
    print_calls(&rt)
}

// The work, the means, the corrections, the days of new moons, and how an eclipse is graded.
fn print_rules(rt: &impl Print) -> io::Result<()> {
    work::print_calendars(rt)?;
    work::print_edges(rt)?;
    work::print_roundings(rt)?;
    work::print_units(rt)?;
    means::print_senmyo(rt)?;
    means::print_genka(rt)?;
    corrections::print_extents(rt)?;
    corrections::print_rows(rt)?;
    corrections::print_changes(rt)?;
    days::print_days(rt)?;
    eclipses::print_grades(rt)?;
    eclipses::print_nodes(rt)?;
    eclipses::print_node_places(rt)
}

// What the calls answer: hours, records, runs and refusals, and what the programs print.
fn print_calls(rt: &impl Print) -> io::Result<()> {
    hours::print_hours(rt)?;
    records::print_record(rt)?;
    records::print_lengths(rt)?;
    records::print_damage(rt)?;
    runs::print_runs(rt)?;
    refusals::print_dates_refused(rt)?;
    refusals::print_days_refused(rt)?;
    refusals::print_eclipses_refused(rt)?;
    refusals::print_hours_refused(rt)?;
    program::print_program(rt)
}
