// What the calls on a kept run answer: opening at good years and bad ones, extending past fourteen years and dropping to one, damaged runs,
// and days and dates looked up. Of a run stand here the four numbers of its head and the sums of its two rows of places; of a full run, every place.
ghost use Rattle.std.specs.Prelude.{◌<◌, ◌≤◌, length};

use crate::told::{ToldDate, ToldDay};
use calendar::Refusal;
use check_print::refusal_number;
use run::Run;
use std::{fmt, io};

// A run, each number after a space.
#[derive(Clone, Copy)]
struct Shown(Run);

fn sum_of(numbers: &[u32]) -> u64
    requires { length numbers.now ≤ 174 }
{
    numbers.iter().map(|number| u64::from(*number)).sum()
}

impl fmt::Display for Shown {
    fn fmt<W: fmt::Write>(&self, f: &mut fmt::Formatter<W>) -> fmt::Result {
        let run = self.0;
        write!(
            f,
            " {} {} {} {} {} {}",
            run.calendar,
            run.first_year,
            run.years,
            run.count,
            sum_of(&run.first_days),
            sum_of(&run.last_dates)
        )
    }
}

fn day_in(run: &Run, year: u64, month: u64, leap: bool, day: u64) -> ToldDay {
    ToldDay(run::run_day_of(run, year, month, leap, day))
}

fn date_in(run: &Run, day: u64) -> ToldDate {
    ToldDate(run::run_date_of(run, day))
}

// ---- runs opened

fn print_opening(rt: &impl Print, calendar: u64, year: u64) -> io::Result<()> {
    let opened = run::open_run(calendar, year);
    let run = opened.unwrap_or_default();
    println!(rt;
        "{calendar} {year} {}{}",
        refusal_number(opened.err()),
        Shown(run)
    )
}

fn print_openings(rt: &impl Print) -> io::Result<()> {
    let asked = [
        (1, 1522),
        (1, 822),
        (1, 1684),
        (2, 445),
        (2, 697),
        (1, 821),
        (1, 1685),
        (2, 444),
        (2, 698),
        (2, 1522),
        (1, 643),
        (0, 1522),
        (3, 1522),
        (257, 1522),
        (1, 67_058),
        (1, u64::MAX),
        (u64::MAX, u64::MAX),
    ];
    for (calendar, year) in asked {
        print_opening(rt, calendar, year)?;
    }
    Ok(())
}

// ---- a run moved on

// A line of its own for a run and what was refused on the way to it.
fn print_reached(rt: &impl Print, refused: Option<Refusal>, run: &Run) -> io::Result<()> {
    println!(rt; "{}{}", refusal_number(refused), Shown(*run))
}

// Opens a run, which is one of zeros where that is refused.
fn print_opened(rt: &impl Print, calendar: u64, year: u64) -> io::Result<Run> {
    let opened = run::open_run(calendar, year);
    let run = opened.unwrap_or_default();
    print_reached(rt, opened.err(), &run)?;
    Ok(run)
}

// Moves a run on so many times, by a year more at the end or one less at the beginning.
fn print_moved<F: Fn(&mut Run) -> Result<(), Refusal>>(
    rt: &impl Print,
    run: &mut Run,
    step: F,
    times: usize,
) -> io::Result<()>
    requires { F.IsAlwaysCallable step }
{
    for _ in 0..times {
        let moved = step(run);
        print_reached(rt, moved.err(), run)?;
    }
    Ok(())
}

fn print_places(rt: &impl Print, run: &Run) -> io::Result<()> {
    for (day, date) in run.first_days.iter().zip(&run.last_dates) {
        println!(rt; "{day} {date}")?;
    }
    Ok(())
}

// A month's name; the days of its first and last date and of the date past it; the dates of its first and last day.
fn print_month(rt: &impl Print, run: &Run, first: u32, name: u32, length: u32) -> io::Result<()>
    requires { (1 ≤ length) × (length < 100) }
{
    let year = u64::from(name % 1_000_000 / 100);
    let month = u64::from(name % 100);
    let leap = 1_000_000 <= name;
    let first = u64::from(first);
    let length = u64::from(length);
    println!(rt;
        "{year} {month} {} {} {} {} {} {}",
        u8::from(leap),
        day_in(run, year, month, leap, 1),
        day_in(run, year, month, leap, length),
        day_in(run, year, month, leap, length + 1),
        date_in(run, first),
        date_in(run, first + length - 1)
    )
}

fn print_months(rt: &impl Print, run: &Run) -> io::Result<()> {
    for (first, last_date) in run.first_days.iter().zip(&run.last_dates) {
        let length = last_date % 100;
        if 0 < length {
            print_month(rt, run, *first, last_date / 100, length)?;
        }
    }
    Ok(())
}

// A run filled, looked through, moved on by a year, dropped to one year, and extended again.
fn print_kept(rt: &impl Print, calendar: u64, year: u64) -> io::Result<()> {
    let mut run = print_opened(rt, calendar, year)?;
    print_moved(rt, &mut run, run::extend_run, 15)?;
    print_places(rt, &run)?;
    print_months(rt, &run)?;
    print_moved(rt, &mut run, run::drop_oldest, 1)?;
    print_moved(rt, &mut run, run::extend_run, 1)?;
    print_moved(rt, &mut run, run::drop_oldest, 15)?;
    print_moved(rt, &mut run, run::extend_run, 3)
}

// Runs that reach a calendar's last year, of fourteen years and of one.
fn print_last_years(rt: &impl Print) -> io::Result<()> {
    let mut long = print_opened(rt, 1, 1671)?;
    print_moved(rt, &mut long, run::extend_run, 15)?;
    let mut short = print_opened(rt, 2, 697)?;
    print_moved(rt, &mut short, run::extend_run, 1)?;
    print_moved(rt, &mut short, run::drop_oldest, 1)
}

// ---- damaged runs

fn print_damaged(rt: &impl Print, number: u64, run: &Run) -> io::Result<()> {
    let mut longer = *run;
    let extended = run::extend_run(&mut longer);
    let mut shorter = *run;
    let dropped = run::drop_oldest(&mut shorter);
    println!(rt;
        "{number} {}{} {}{} {} {}",
        refusal_number(extended.err()),
        Shown(longer),
        refusal_number(dropped.err()),
        Shown(shorter),
        day_in(run, 1523, 3, true, 1),
        date_in(run, 2_277_350)
    )
}

fn print_with_head(
    rt: &impl Print,
    number: u64,
    run: &Run,
    calendar: u8,
    first_year: u16,
    years: u8,
    count: u8,
) -> io::Result<()> {
    let damaged = Run {
        calendar,
        first_year,
        years,
        count,
        ..*run
    };
    print_damaged(rt, number, &damaged)
}

// The run of 1522 to 1524 under another calendar, first year, number of years or count.
fn print_other_heads(rt: &impl Print, run: &Run) -> io::Result<()> {
    let heads = [
        (1, 0, 1522, 3, 37),
        (2, 2, 1522, 3, 37),
        (3, 255, 1522, 3, 37),
        (4, 1, 1521, 3, 37),
        (5, 1, 1523, 3, 37),
        (6, 1, 0, 3, 37),
        (7, 1, 65_535, 3, 37),
        (8, 1, 1522, 0, 37),
        (9, 1, 1522, 2, 37),
        (10, 1, 1522, 4, 37),
        (11, 1, 1522, 15, 37),
        (12, 1, 1522, 255, 37),
        (13, 1, 1522, 3, 36),
        (14, 1, 1522, 3, 38),
        (15, 1, 1522, 3, 0),
    ];
    for (number, calendar, first_year, years, count) in heads {
        print_with_head(rt, number, run, calendar, first_year, years, count)?;
    }
    Ok(())
}

// A run with more in one place of its first days, and in the same place of its last dates. (The remainder keeps the sums in their words; a sound run has
// no number of ten digits.)
fn with_more(run: &Run, place: usize, days: u32, dates: u32) -> Run
    requires { (place < 174) × ((days ≤ 100000000) × (dates ≤ 100000000)) }
{
    let mut changed = *run;
    changed.first_days[place] = changed.first_days[place] % 1_000_000_000 + days;
    changed.last_dates[place] = changed.last_dates[place] % 1_000_000_000 + dates;
    changed
}

// A place's year, month number, leap or not, length and first day, each by itself.
fn print_other_place(rt: &impl Print, number: u64, run: &Run, place: usize) -> io::Result<()>
    requires { (number ≤ 100) × (place < 174) }
{
    print_damaged(rt, number, &with_more(run, place, 0, 10_000))?;
    print_damaged(rt, number + 1, &with_more(run, place, 0, 100))?;
    print_damaged(rt, number + 2, &with_more(run, place, 0, 100_000_000))?;
    print_damaged(rt, number + 3, &with_more(run, place, 0, 1))?;
    print_damaged(rt, number + 4, &with_more(run, place, 1, 0))
}

// The run of 1522 and so many years more. (`check_figures` has its like: one for both would be a public function over runs, with a contract, for six lines.)
fn run_from_1522(more: usize) -> Run {
    let mut run = run::open_run(1, 1522).unwrap_or_default();
    for _ in 0..more {
        let _ = run::extend_run(&mut run);
    }
    run
}

// Copies of the run of 1522 to 1524, the first of them sound, the others damaged. Then its head over the places of a year more, its places under the head
// that a drop would give, and a run of zeros.
fn print_each_damaged(rt: &impl Print) -> io::Result<()> {
    let run = run_from_1522(2);
    print_damaged(rt, 0, &run)?;
    print_other_heads(rt, &run)?;
    print_other_place(rt, 16, &run, 20)?;
    print_other_place(rt, 21, &run, 173)?;
    print_with_head(rt, 26, &run_from_1522(3), 1, 1522, 3, 37)?;
    print_with_head(rt, 27, &run, 1, 1523, 2, 25)?;
    print_damaged(rt, 28, &Run::default())
}

// ---- days and dates looked up

fn print_day_of(
    rt: &impl Print,
    run: &Run,
    year: u64,
    month: u64,
    leap: bool,
    day: u64,
) -> io::Result<()> {
    println!(rt;
        "{year} {month} {} {day} {}",
        u8::from(leap),
        day_in(run, year, month, leap, day)
    )
}

fn print_other_years(rt: &impl Print, run: &Run) -> io::Result<()> {
    let dates = [
        (1521, 1, false, 1),
        (1525, 1, false, 1),
        (0, 1, false, 1),
        (67_058, 1, false, 1),
        (u64::MAX, u64::MAX, true, u64::MAX),
        (1521, 13, false, 0),
    ];
    for (year, month, leap, day) in dates {
        print_day_of(rt, run, year, month, leap, day)?;
    }
    Ok(())
}

fn print_other_months(rt: &impl Print, run: &Run) -> io::Result<()> {
    let dates = [
        (1522, 0, false, 1),
        (1522, 13, false, 1),
        (1522, 257, false, 1),
        (1522, u64::MAX, false, 1),
        (1522, 3, true, 1),
        (1522, 13, true, 0),
    ];
    for (year, month, leap, day) in dates {
        print_day_of(rt, run, year, month, leap, day)?;
    }
    Ok(())
}

fn print_days(rt: &impl Print, run: &Run) -> io::Result<()> {
    let dates = [
        (1522, 12, false, 30),
        (1522, 12, false, 31),
        (1523, 1, false, 1),
        (1523, 3, false, 30),
        (1523, 3, false, 31),
        (1523, 3, true, 0),
        (1523, 3, true, 1),
        (1523, 3, true, 29),
        (1523, 3, true, 30),
        (1523, 3, true, 257),
        (1523, 3, true, u64::MAX),
        (1524, 12, false, 30),
        (1524, 12, false, 31),
    ];
    for (year, month, leap, day) in dates {
        print_day_of(rt, run, year, month, leap, day)?;
    }
    Ok(())
}

fn print_dates(rt: &impl Print, run: &Run) -> io::Result<()> {
    let days = [
        0,
        2_276_995,
        2_276_996,
        2_277_349,
        2_277_350,
        2_277_733,
        2_277_734,
        2_278_087,
        2_278_088,
        4_297_244_292,
        u64::MAX,
    ];
    for day in days {
        println!(rt; "{day} {}", date_in(run, day))?;
    }
    Ok(())
}

fn print_look_ups(rt: &impl Print) -> io::Result<()> {
    let run = run_from_1522(2);
    print_other_years(rt, &run)?;
    print_other_months(rt, &run)?;
    print_days(rt, &run)?;
    print_dates(rt, &run)
}

pub fn print_runs(rt: &impl Print) -> io::Result<()> {
    print_openings(rt)?;
    print_kept(rt, 1, 1523)?;
    print_kept(rt, 2, 638)?;
    print_last_years(rt)?;
    print_each_damaged(rt)?;
    print_look_ups(rt)
}
