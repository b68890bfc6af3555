// What a run of years holds, with a year more or without its oldest.
#![tactic(auto)]

ghost use Rattle.std.specs.Prelude.{◌≡◌, ◌+◌, ◌-◌, ◌≤◌, length};
ghost use Rattle.months.specs.Months.{month_count};
ghost use Rattle.calendar_range.specs.Range.{rules_for};
ghost use Rattle.run_content.specs.Runs.{run_of, empty_run};
ghost use Rattle.run_content.specs.Room.{last_date_of, moved_up, CoveredYears, NextYear, Extendable, Droppable};

use calendar_date::Date;
use calendar_year::{Month, Year};

// Consecutive years of one calendar, how many months they have, and of each month in order its first day and its last date, as `date_number` has it.
// Places after the last month hold zero. A `Run` may hold any numbers: what is given for a run and is none is refused with 11 (`run_examination::is_run`).
// The two arrays stand apart, as `run_of` and the laws of a run have them; a search goes over the first days alone.
#[derive(Clone, Copy, Debug, PartialEq, Eq)]
pub struct Run {
    pub calendar: u8,
    pub first_year: u16,
    pub years: u8,
    pub count: u8,
    pub first_days: [u32; 174],
    pub last_dates: [u32; 174],
}

pub fn empty_run(calendar: u8, first_year: u16) -> Run
    ensures { result ≡ empty_run calendar first_year }
{
    Run {
        calendar,
        first_year,
        years: 0,
        count: 0,
        first_days: [0; 174],
        last_dates: [0; 174],
    }
}

// The run of zeros, which is none.
impl Default for Run {
    ghost use Rattle.std.specs.Prelude.{◌≡◌};
    ghost use Rattle.run_content.specs.Runs.{no_run};

    ghost is_default = { λ run. run ≡ no_run };

    fn default() -> Run {
        empty_run(0, 0)
    }
}

fn last_date(year: u16, month: Month) -> u32
    ensures { result ≡ last_date_of year month }
{
    calendar_date::date_number(Date {
        year,
        month: month.number,
        leap: month.leap,
        day: month.length,
    })
}

// The months of a run's next year go behind its own, each at its place in both arrays.
fn with_year(run: &mut Run, next: Year)
    requires { NextYear run.old next }
    ensures { run.new ≡ run_of run.old.calendar run.old.first_year (run.old.years + 1) }
{
    let year = run.first_year + run.years as u16;
    let count = run.count as usize;
    let months = &next.months[..next.count as usize];
    for (listed, month) in months.iter().enumerate() {
        run.first_days[count + listed] = month.first_day;
        run.last_dates[count + listed] = last_date(year, *month);
    }
    run.years += 1;
    run.count += next.count;
}

// A run gets the year after its last.
pub fn with_next(run: &mut Run)
    requires { Extendable run.old }
    ensures { run.new ≡ run_of run.old.calendar run.old.first_year (run.old.years + 1) }
{
    let year = run.first_year as u64 + run.years as u64;
    let next = calendar_year::year_of(run.calendar as u64, year).unwrap();
    with_year(run, next);
}

// The run of some years. (Whether any such three numbers may be a run's is what `can_be_kept` finds out, so that they are no type that says so.)
pub fn run_of(calendar: u8, first_year: u16, years: u8) -> Run
    requires { CoveredYears calendar first_year years }
    ensures { result ≡ run_of calendar first_year years }
{
    let mut run = empty_run(calendar, first_year);
    for _ in 0..years {
        with_next(&mut run);
    }
    run
}

// How many months the oldest of several years has: the date in the thirteenth place tells whose month that is. (Of its number one part is needed.)
fn oldest_months(run: &Run) -> u8
    requires { Droppable run.now }
    ensures { result ≡ month_count (rules_for run.now.calendar) run.now.first_year }
{
    let thirteenth = run.last_dates[12];
    if thirteenth % 100_000_000 / 10_000 == run.first_year as u32 {
        return 13;
    }
    12
}

// Of the places that are used all but the first move up to the front, and those that they leave hold zero.
fn move_up(numbers: &mut [u32], first: usize, used: usize)
    requires some_stay { first ≤ used }
    requires inside { used ≤ length numbers.old }
    ensures { numbers.new ≡ moved_up numbers.old first used }
{
    numbers.copy_within(first..used, 0);
    numbers[used - first..used].fill(0);
}

// A run loses its first year: the later months move up, and the places that they leave hold zero.
pub fn without_oldest(run: &mut Run)
    requires { Droppable run.old }
    ensures { run.new ≡ run_of run.old.calendar (run.old.first_year + 1) (run.old.years - 1) }
{
    let oldest = oldest_months(run);
    let used = run.count as usize;
    move_up(&mut run.first_days, oldest as usize, used);
    move_up(&mut run.last_dates, oldest as usize, used);
    run.first_year += 1;
    run.years -= 1;
    run.count -= oldest;
}
