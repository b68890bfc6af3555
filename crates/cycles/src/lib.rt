#![tactic(auto)]

ghost use Rattle.std.specs.Prelude.{◌≡◌};
ghost use Rattle.cycles.specs.Cycles.{cycle_moment, cycle_day, last_by, dated, Apart};

// What comes round again and again, the first at the start of the count: so many units from one to the next, of which a day has so many.
#[derive(Clone, Copy, Debug, PartialEq, Eq)]
pub struct Cycle {
    pub spacing: u32,
    pub of_day: u32,
}

// One of them, by its number, with its day.
#[derive(Clone, Copy, Debug, PartialEq, Eq)]
pub struct Dated {
    pub number: u32,
    pub day: u64,
}

// A cast by `as` to a wider word loses nothing, and a proof computes with it: with `u64::from` that of `last_by` did not close as it stood.
impl Cycle {
    // Where the one of a number stands, in units from the start.
    pub fn moment_of(self, number: u32) -> u64
        ensures { result ≡ cycle_moment self number }
    {
        (self.spacing as u64) * (number as u64)
    }

    // Its day, in whole days from the start.
    pub fn day_of(self, number: u32) -> u64
        requires { Apart self }
        ensures { result ≡ cycle_day self number }
    {
        self.moment_of(number) / (self.of_day as u64)
    }

    // The last by the end of a day, with its own day.
    pub fn last_by(self, day: u32) -> Dated
        requires { Apart self }
        ensures { result ≡ dated self (last_by self day) }
    {
        let end = (self.of_day as u64) * (day as u64 + 1);
        let number = ((end - 1) / (self.spacing as u64)) as u32;
        let day = self.day_of(number);
        Dated { number, day }
    }
}
