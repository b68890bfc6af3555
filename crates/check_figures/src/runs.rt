// The kept run.
use crate::told;
use crate::told::DateOrRefusal;
use run::Run;
use std::io;

// A run from a year on, with so many years more; a run of zeros where that is refused. (`check_listing` has its like, and the reason.)
fn run_from(year: u64, more: usize) -> Run {
    let mut run = run::open_run(1, year).unwrap_or_default();
    for _ in 0..more {
        let _ = run::extend_run(&mut run);
    }
    run
}

fn extending(run: &Run) -> u8 {
    let mut longer = *run;
    check_print::refusal_number(run::extend_run(&mut longer).err())
}

fn print_extended(rt: &impl Print, full: &Run) -> io::Result<()> {
    println!(rt;
        "1523 to 1536, years and months: {} {}",
        full.years, full.count
    )?;
    println!(rt;
        "extending it, 1671 to 1684, 1684, and a run of zeros: {} {} {} {}",
        extending(full),
        extending(&run_from(1671, 13)),
        extending(&run_from(1684, 0)),
        extending(&run_from(0, 0))
    )
}

fn print_dropping(rt: &impl Print, run: &mut Run) -> io::Result<()> {
    let refused = run::drop_oldest(run).err();
    print!(rt;
        " {} {} {} {}",
        check_print::refusal_number(refused),
        run.first_year,
        run.years,
        run.count
    )
}

// A drop from a full run leaves 161 months; the first days at the last of them and after it.
fn print_dropped(rt: &impl Print, full: &mut Run) -> io::Result<()> {
    print!(rt;
        "dropping from it, from 1522, and from a run of zeros, refusal, first year, years and months left:"
    )?;
    print_dropping(rt, full)?;
    print_dropping(rt, &mut run_from(1522, 0))?;
    print_dropping(rt, &mut run_from(0, 0))?;
    println!(rt)?;
    let days = full.first_days;
    println!(rt;
        "then the first days in places 160, 161 and 173: {} {} {}",
        days[160], days[161], days[173]
    )
}

fn print_refused_opening(rt: &impl Print) -> io::Result<()> {
    let opened = run::open_run(1, 1685);
    let run = opened.unwrap_or_default();
    println!(rt;
        "opening at 1685, refusal, calendar, first year, years and months: {} {} {} {} {}",
        check_print::refusal_number(opened.err()),
        run.calendar,
        run.first_year,
        run.years,
        run.count
    )
}

fn day_in(run: &Run, year: u64, month: u64, day: u64) -> u32 {
    told::day_or_refusal(run::run_day_of(run, year, month, true, day))
}

fn date_in(run: &Run, day: u64) -> DateOrRefusal {
    DateOrRefusal(run::run_date_of(run, day))
}

fn print_look_ups(rt: &impl Print, run: &Run) -> io::Result<()> {
    println!(rt;
        "in 1522 and 1523: 1524, leap month 13, day 0, then with year 1523, month 3 and day 1 put right in turn: {} {} {} {}",
        day_in(run, 1524, 13, 0),
        day_in(run, 1523, 13, 0),
        day_in(run, 1523, 3, 0),
        day_in(run, 1523, 3, 1)
    )?;
    println!(rt;
        "its last day, the day before its first, the day after its last: {} {} {}",
        date_in(run, 2_277_733),
        date_in(run, 2_276_995),
        date_in(run, 2_277_734)
    )
}

pub fn print_runs(rt: &impl Print) -> io::Result<()> {
    let mut full = run_from(1523, 13);
    print_extended(rt, &full)?;
    print_dropped(rt, &mut full)?;
    print_refused_opening(rt)?;
    print_look_ups(rt, &run_from(1522, 1))
}
