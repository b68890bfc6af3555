// The calls on a run: open, extend, drop, look up.
#![tactic(auto)]

ghost use Rattle.std.specs.Prelude.{◌≡◌};
ghost use Rattle.answers.specs.Answer.{told, told_as, done, left_in};
ghost use Rattle.run_content.specs.Runs.{no_run};
ghost use Rattle.run.specs.Calls.{Unwrapped, examined_of, open_of, extend_of, drop_of, run_day_of, run_date_of};
ghost use Rattle.run_lookup.specs.declared.KeptRun.{KeptRun};

pub use answers::Refusal;
pub use calendar_date::Date;
pub use run_content::Run;
use run_lookup::KeptRun;

// The run of one year. Of what it answers `unwrap_or_default` gives that run, or, where it is refused, the run of zeros.
pub fn open_run(calendar: u64, year: u64) -> Result<Run, Refusal>
    ensures opened { told result ≡ open_of calendar year }
    ensures unwrapped { Unwrapped result (left_in no_run (open_of calendar year)) }
{
    let known = calendar_range::asked_year(calendar, year)?;
    Ok(run_content::run_of(calendar as u8, known.year, 1))
}

// What is given for a run, if it is one.
#[tactic(auto, using(crate::proofs::Steps::passed, crate::proofs::Steps::failed))]
fn examined(run: &Run) -> Result<KeptRun<'_>, Refusal>
    ensures { told_as (λ (kept : KeptRun). kept.run.now) result ≡ examined_of run.now }
{
    if !run_examination::is_run(run) {
        return Err(Refusal::NoRun);
    }
    Ok(KeptRun { run })
}

// A run gets its next year.
#[tactic(auto, using(crate::proofs::Limits::full_told, crate::proofs::Limits::full_left))]
pub fn extend_run(run: &mut Run) -> Result<(), Refusal>
    ensures refusal { told result ≡ done (extend_of run.old) }
    ensures left { run.new ≡ left_in run.old (extend_of run.old) }
{
    examined(run)?;
    let next = run.first_year as u64 + run.years as u64;
    if !calendar_range::is_covered(run.calendar as u64, next) {
        return Err(Refusal::YearNotCovered);
    }
    if 14 <= run.years {
        return Err(Refusal::RunFull);
    }
    run_content::with_next(run);
    Ok(())
}

// A run loses its first year.
#[tactic(auto, using(crate::proofs::Limits::last_told, crate::proofs::Limits::last_left))]
pub fn drop_oldest(run: &mut Run) -> Result<(), Refusal>
    ensures refusal { told result ≡ done (drop_of run.old) }
    ensures left { run.new ≡ left_in run.old (drop_of run.old) }
{
    examined(run)?;
    if run.years <= 1 {
        return Err(Refusal::RunOfOneYear);
    }
    run_content::without_oldest(run);
    Ok(())
}

// The date of a day, looked up in a run.
pub fn run_date_of(run: &Run, day: u64) -> Result<Date, Refusal>
    ensures { told result ≡ run_date_of run.now day }
{
    examined(run)?.date_of(day)
}

// The day of a date, looked up in a run.
pub fn run_day_of(run: &Run, year: u64, month: u64, leap: bool, day: u64) -> Result<u32, Refusal>
    ensures { told result ≡ run_day_of run.now year month leap day }
{
    examined(run)?.day_of(year, month, leap, day)
}
