// Whether what is given for a run is one.
#![tactic(auto)]

ghost use Rattle.std.specs.Prelude.{◌≡◌};
ghost use Rattle.run_examination.specs.Examined.{can_be_kept, is_run};

use run_content::Run;

#[tactic(auto, unfolding(crate::specs::Examined::can_be_kept))]
fn can_be_kept(calendar: u8, first_year: u16, years: u8) -> bool
    ensures { result ≡ can_be_kept calendar first_year years }
{
    (1..=14).contains(&years)
        && calendar_range::is_covered(calendar as u64, first_year as u64)
        && calendar_range::is_covered(calendar as u64, first_year as u64 + years as u64 - 1)
}

// Whether a run holds what the rules give for its calendar and years, in every place.
pub fn is_run(run: &Run) -> bool
    ensures { result ≡ is_run run.now }
{
    if !can_be_kept(run.calendar, run.first_year, run.years) {
        return false;
    }
    let rule = run_content::run_of(run.calendar, run.first_year, run.years);
    *run == rule
}
