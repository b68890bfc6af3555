// Look-ups in an examined run.
#![tactic(auto, using(run_content::proofs::Content::count_fits, crate::proofs::Places::some_month, crate::proofs::Places::ends_small), unfolding(answers::specs::Conditions::asking, crate::specs::Room::day_at, crate::specs::Held::day_in_run, crate::specs::Held::date_in_run))]

ghost use Rattle.std.specs.Prelude.{◌≡◌, ◌==◌, true, ◌/◌, ◌<◌, position};
ghost use Rattle.answers.specs.Answer.{told};
ghost use Rattle.run_content.specs.Room.{Kept};
ghost use Rattle.run_lookup.specs.Held.{holds_year, holds_day, day_in_run, date_in_run};
ghost use Rattle.run_lookup.specs.Room.{LastBegun, day_after, date_in_month, MonthPlace, day_at};

use answers::Refusal;
use calendar_date::Date;
use run_content::Run;

// A run that was examined, so that it has the content of its years. (Nothing compares or prints one.)
#[derive(Clone, Copy)]
pub struct KeptRun<'a> {
    pub run: &'a Run,
    pub ghost kept: { Kept run.now },
}

// The date of a day of a month that is told by its last date. (It takes the day besides, so that it is no `From`.)
fn date_in_month(last_date: u32, day: u8) -> Date
    ensures { result ≡ date_in_month last_date day }
{
    Date {
        year: (last_date % 100_000_000 / 10_000) as u16,
        month: (last_date / 100 % 100) as u8,
        leap: 100_000_000 <= last_date,
        day,
    }
}

// The first place whose month has a name, told as a date's number without the day.
fn place_with_name(last_dates: &[u32], name: u32) -> Option<usize>
    ensures { result ≡ position (λ last. last / 100 == name) last_dates.now }
{
    last_dates
        .iter()
        .position(|last_date| *last_date / 100 == name)
}

impl KeptRun<'_> {
    // The last of the used places whose month has begun by a day.
    fn place_of_day(self, day: u32) -> usize
        requires { holds_day self.run.now day ≡ true }
        ensures { LastBegun self.entry.run.now.first_days self.entry.run.now.count day result }
    {
        let first_days = &self.run.first_days[..self.run.count as usize];
        first_days.partition_point(|first_day| *first_day <= day) - 1
    }

    // The day after its last.
    fn day_after(self) -> u32
        ensures { result ≡ day_after self.entry.run.now }
    {
        let last = self.run.count as usize - 1;
        self.run.first_days[last] + self.run.last_dates[last] % 100
    }

    // The date of one of its days.
    pub fn date_of(self, day: u64) -> Result<Date, Refusal>
        ensures { told result ≡ date_in_run self.entry.run.now day }
    {
        let days = self.run.first_days[0] as u64..self.day_after() as u64;
        if !days.contains(&day) {
            return Err(Refusal::DayNotCovered);
        }
        let place = self.place_of_day(day as u32);
        let number = day - self.run.first_days[place] as u64 + 1;
        Ok(date_in_month(self.run.last_dates[place], number as u8))
    }

    // The place of a month of one of its years.
    fn place_of_month(self, year: u64, month: u64, leap: bool) -> Option<usize>
        requires { holds_year self.run.now year ≡ true }
        ensures { MonthPlace self.entry.run.now year month leap result }
    {
        if 12 < month {
            return None;
        }
        let date = Date {
            year: year as u16,
            month: month as u8,
            leap,
            day: 0,
        };
        place_with_name(
            &self.run.last_dates[..self.run.count as usize],
            calendar_date::date_number(date) / 100,
        )
    }

    // The day of a month that stands at a place.
    fn day_at(self, place: usize, day: u64) -> Result<u32, Refusal>
        requires { place < self.run.now.count }
        ensures { told result ≡ day_at self.entry.run.now place day }
    {
        if !(1..=(self.run.last_dates[place] % 100) as u64).contains(&day) {
            return Err(Refusal::NoSuchDay);
        }
        Ok((self.run.first_days[place] as u64 + day - 1) as u32)
    }

    // The day of a date of one of its years.
    pub fn day_of(self, year: u64, month: u64, leap: bool, day: u64) -> Result<u32, Refusal>
        ensures { told result ≡ day_in_run self.entry.run.now year month leap day }
    {
        let first_year = self.run.first_year as u64;
        let years = first_year..first_year + self.run.years as u64;
        if !years.contains(&year) {
            return Err(Refusal::YearNotCovered);
        }
        let Some(place) = self.place_of_month(year, month, leap) else {
            return Err(Refusal::NoSuchMonth);
        };
        self.day_at(place, day)
    }
}
