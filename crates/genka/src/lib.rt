#![tactic(auto)]

ghost use Rattle.std.specs.Prelude.{◌≡◌, ◌*◌, ◌<◌, ◌^◌};
ghost use Rattle.genka.specs.Genka.{part_to_half_parts, new_moon, full_moon};

use cycles::Cycle;

// 1/752 of a day.
#[derive(Clone, Copy, Debug, PartialEq, Eq, PartialOrd, Ord)]
pub struct Part(pub u64);

// Half a part.
#[derive(Clone, Copy, Debug, PartialEq, Eq, PartialOrd, Ord)]
pub struct HalfPart(pub u64);

pub const HALF_PARTS_IN_DAY: u32 = 2 * NEW_MOONS.of_day;

// From a new moon to the next, in parts; half of that is as many half parts.
pub const NEW_MOONS: Cycle = Cycle {
    spacing: 22207,
    of_day: 752,
};

// From a mid-term to the next, in 1/7,296 of a day.
pub const MID_TERMS: Cycle = Cycle {
    spacing: 222070,
    of_day: 7296,
};

// New moon `number`, of which the first stands at the origin.
pub fn new_moon(number: u32) -> Part
    ensures { result ≡ new_moon number }
{
    Part(NEW_MOONS.moment_of(number))
}

// A named function, as the units of Senmyo have them; a `From` could not require that the product fits its word.
pub fn part_to_half_parts(moment: Part) -> HalfPart
    requires { moment.0 * 2 < 2 ^ 64 }
    ensures { result ≡ part_to_half_parts moment }
{
    HalfPart(moment.0 * 2)
}

// The full moon after new moon `number`, half a month later.
pub fn full_moon(number: u32) -> HalfPart
    ensures { result ≡ full_moon number }
{
    HalfPart(part_to_half_parts(new_moon(number)).0 + (NEW_MOONS.spacing as u64))
}
