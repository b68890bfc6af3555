// Prints what the calls answer, section by section, each under its heading: at every covered year, and at inputs that show the refusals.
#![tactic(auto)]

mod asked;
mod eclipses;
mod instants;
mod records;
mod replies;
mod runs;
mod told;
mod years;

use std::io;

fn main(rt: HostRuntime) -> io::Result<()> {
    print_all(&rt)
}

fn print_all(rt: &impl Print) -> io::Result<()> {
    println!(rt; "replies")?;
    replies::print_replies(rt)?;
    println!(rt; "years")?;
    years::print_years(rt)?;
    println!(rt; "eclipses")?;
    eclipses::print_eclipses(rt)?;
    println!(rt; "instants")?;
    instants::print_instants(rt)?;
    println!(rt; "records")?;
    records::print_records(rt)?;
    println!(rt; "runs")?;
    runs::print_runs(rt)
}
