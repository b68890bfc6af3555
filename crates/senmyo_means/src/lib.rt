#![tactic(auto)]

ghost use Rattle.std.specs.Prelude.{◌≡◌};
ghost use Rattle.senmyo_means.specs.Means.{mean_new_moon, mean_full_moon};

use cycles::Cycle;
use units::{BYO_IN_DAY, BYO_IN_FEN, Byo, Fen};

// From a solstice to the next.
pub const SOLAR_YEAR: Fen = Fen(3068055);

// Two terms of 127,835 fen 5 byo from a mid-term to the next, in byo.
pub const MID_TERMS: Cycle = Cycle {
    spacing: 2 * (127835 * (BYO_IN_FEN as u32) + 5),
    of_day: BYO_IN_DAY as u32,
};

// From a mean new moon to the next.
pub const MONTH: Fen = Fen(248057);

// From a mean new moon to the mean full moon: 124,028 1/2 fen.
const HALF_MONTH: Byo = Byo(124028 * BYO_IN_FEN + 4);

// Mean new moon `number`, of which the first stands at the start of the count.
pub fn mean_new_moon(number: u32) -> Fen
    ensures { result ≡ mean_new_moon number }
{
    Fen(MONTH.0 * (number as u64))
}

// The mean full moon after new moon `number`.
pub fn mean_full_moon(number: u32) -> Byo
    ensures { result ≡ mean_full_moon number }
{
    Byo(units::fen_to_byo(mean_new_moon(number)).0 + HALF_MONTH.0)
}
