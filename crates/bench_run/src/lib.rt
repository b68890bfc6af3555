// Calls on a run, for the benchmark to time: it holds the run's numbers, and lends them. `bench_run_c` exports them.
#![tactic(auto)]

ghost use Rattle.std.specs.Prelude.{◌≡◌};
ghost use Rattle.answers.specs.Answer.{refusal_in, left_in};
ghost use Rattle.run.specs.Calls.{run_date_of};
ghost use Rattle.bench_run.specs.Timed.{held_run, changed, told_in};

use run::Run;

// The date of a day in a run, as one number, or the refusal's number.
pub fn timed_date(
    calendar: u8,
    first_year: u16,
    years: u8,
    count: u8,
    first_days: &[u32; 174],
    last_dates: &[u32; 174],
    day: u64,
) -> u64
    ensures { result ≡ told_in (run_date_of (held_run calendar first_year years count first_days.now last_dates.now) day) }
{
    let held = Run {
        calendar,
        first_year,
        years,
        count,
        first_days: *first_days,
        last_dates: *last_dates,
    };
    match run::run_date_of(&held, day) {
        Ok(date) => u64::from(calendar_date::date_number(date)),
        Err(refusal) => u64::from(refusal.number()),
    }
}

// Extends a run, or drops its oldest year. Answers the refusal's number, or 0.
pub fn timed_change(
    drop: u8,
    calendar: &mut u8,
    first_year: &mut u16,
    years: &mut u8,
    count: &mut u8,
    first_days: &mut [u32; 174],
    last_dates: &mut [u32; 174],
) -> u8
    ensures refusal { result ≡ refusal_in (changed drop (held_run calendar.old first_year.old years.old count.old first_days.old last_dates.old)) }
    ensures left { held_run calendar.new first_year.new years.new count.new first_days.new last_dates.new ≡ left_in (held_run calendar.old first_year.old years.old count.old first_days.old last_dates.old) (changed drop (held_run calendar.old first_year.old years.old count.old first_days.old last_dates.old)) }
{
    let mut held = Run {
        calendar: *calendar,
        first_year: *first_year,
        years: *years,
        count: *count,
        first_days: *first_days,
        last_dates: *last_dates,
    };
    let moved = if drop == 0 {
        run::extend_run(&mut held)
    } else {
        run::drop_oldest(&mut held)
    };
    *calendar = held.calendar;
    *first_year = held.first_year;
    *years = held.years;
    *count = held.count;
    *first_days = held.first_days;
    *last_dates = held.last_dates;
    match moved {
        Ok(()) => 0,
        Err(refusal) => refusal.number(),
    }
}
