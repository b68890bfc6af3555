#![tactic(auto)]

ghost use Rattle.std.specs.Prelude.{◌≡◌};
ghost use Rattle.julian.specs.Julian.{instant};
ghost use Rattle.julian.specs.Room.{Datable};

// A moment as a Julian date, from its day number and the parts of the day gone: one exact numerator, divided once.
pub fn julian_date(day: u32, part: u32, of_day: u32) -> f64
    requires { Datable day part of_day }
    ensures { result ≡ instant day part of_day }
{
    let numerator = (day as u64) * (of_day as u64) + (part as u64) - (of_day as u64) / 2;
    (numerator as f64) / (of_day as f64)
}
