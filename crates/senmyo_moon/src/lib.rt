#![tactic(auto)]

ghost use Rattle.std.specs.Prelude.{◌≡◌, ◌*◌, ◌<◌, ◌^◌};
ghost use Rattle.senmyo_moon.specs.Moon.{seconds_to_half_seconds, gaining_in7, moon_of};
ghost use Rattle.senmyo_moon.specs.Daily.{change_of};
ghost use Rattle.senmyo_moon.specs.Room.{stand_on, first_row, first_row_at, length_of, rounded_part, rounded_at, place_of, stand_at, RoundableRow};

use units::{AnomalySecond, FEN_IN_DAY};

// Half an anomaly second, 1/200 fen: the half period is not whole in anomaly seconds.
#[derive(Clone, Copy, PartialEq, Eq, PartialOrd, Ord)]
struct HalfSecond(u64);

// A row, or a part of row 7, under the sign of its half, in fen: its change, and the sum before it. With names it would take four lines of its table.
#[derive(Clone, Copy)]
struct SignedRow(i64, i64);

// Where a moment stands: in which half, on which day of it, from 0, and how far into that day.
#[derive(Clone, Copy)]
struct RowPlace {
    upper: bool,
    day: usize,
    over: HalfSecond,
}

// A stretch of the table along which the correction changes evenly: a day, a part of row 7, or what stands for a day in row 14. (Nothing compares or prints
// what is private here, so that it derives no more.)
#[derive(Clone, Copy)]
enum Stretch {
    WholeDay,
    GainingIn7,
    LosingIn7,
    DayOf14,
}

// A stretch, its change and sum, and how far along it a moment stands.
#[derive(Clone, Copy)]
struct Stand {
    row: SignedRow,
    over: HalfSecond,
    stretch: Stretch,
}

const HALF_SECONDS_IN_SECOND: u64 = 2;

const HALF_SECONDS_IN_FEN: u64 = 200;

// From an apogee to the next, and half of that.
const PERIOD: AnomalySecond = AnomalySecond(231458_19);

const HALF_PERIOD: HalfSecond = HalfSecond(PERIOD.0 * HALF_SECONDS_IN_SECOND / 2);

const ROWS_IN_HALF: usize = 14;

// The days, from 0, of rows 7 and 14.
const DAY_7: usize = 6;

const DAY_14: usize = 13;

// A day, the two parts of row 7, and what stands for a day in row 14.
const DAY: HalfSecond = HalfSecond(FEN_IN_DAY * HALF_SECONDS_IN_FEN);

const GAINING_IN_7: HalfSecond = HalfSecond(7465 * HALF_SECONDS_IN_FEN);

const LOSING_IN_7: HalfSecond = HalfSecond(935 * HALF_SECONDS_IN_FEN);

const DAY_OF_14: HalfSecond = HalfSecond(6529 * HALF_SECONDS_IN_FEN);

// A named conversion, as those of `units` are.
fn seconds_to_half_seconds(moment: AnomalySecond) -> HalfSecond
    requires { moment.0 * 2 < 2 ^ 64 }
    ensures { result ≡ seconds_to_half_seconds moment }
{
    HalfSecond(moment.0 * HALF_SECONDS_IN_SECOND)
}

// 003, Table 4, row by row: in the upper half a gain is positive and a loss negative; in the lower every sign is turned.
static SIGNED_ROWS: [SignedRow; 28] = [
    // upper half
    SignedRow(830, 0),
    SignedRow(726, 830),
    SignedRow(606, 1556),
    SignedRow(471, 2162),
    SignedRow(337, 2633),
    SignedRow(202, 2970),
    SignedRow(53, 3172),
    SignedRow(-82, 3218),
    SignedRow(-224, 3136),
    SignedRow(-366, 2912),
    SignedRow(-509, 2546),
    SignedRow(-643, 2037),
    SignedRow(-748, 1394),
    SignedRow(-646, 646),
    // lower half
    SignedRow(-830, 0),
    SignedRow(-726, -830),
    SignedRow(-598, -1556),
    SignedRow(-464, -2154),
    SignedRow(-329, -2618),
    SignedRow(-195, -2947),
    SignedRow(-53, -3142),
    SignedRow(82, -3188),
    SignedRow(225, -3106),
    SignedRow(366, -2881),
    SignedRow(501, -2515),
    SignedRow(628, -2014),
    SignedRow(740, -1386),
    SignedRow(646, -646),
];

fn signed_row(place: usize) -> SignedRow
    requires { place < 28 }
    ensures { result ≡ first_row_at place }
{
    SIGNED_ROWS[place]
}

// One look-up, whichever half: which one is as good as chance, and a branch on it would be mispredicted every other time.
fn row_of(upper: bool, day: usize) -> SignedRow
    requires { day < 14 }
    ensures { result ≡ first_row upper day }
{
    let place = if upper { day } else { ROWS_IN_HALF + day };
    signed_row(place)
}

// Row 7 where it loses, from the sum that its gain leads to.
fn losing_row(upper: bool) -> SignedRow
    ensures { result ≡ (stand_on upper 6 gaining_in7).row }
{
    let SignedRow(gain, sum) = row_of(upper, DAY_7);
    let loss = if upper { -7 } else { 7 };
    SignedRow(loss, sum + gain)
}

// sum + change × over / length, rounded.
fn rounded(row: SignedRow, over: HalfSecond, length: HalfSecond) -> i64
    requires { RoundableRow row over length }
    ensures { result ≡ rounded_part row over length }
{
    let SignedRow(change, sum) = row;
    let numerator = sum * (length.0 as i64) + change * (over.0 as i64);
    numbers::nearest_of(numerator, length.0)
}

fn place_of(at: AnomalySecond) -> RowPlace
    ensures { result ≡ place_of at }
{
    let into = seconds_to_half_seconds(AnomalySecond(at.0 % PERIOD.0));
    let rest = into.0 % HALF_PERIOD.0;
    RowPlace {
        upper: into < HALF_PERIOD,
        day: (rest / DAY.0) as usize,
        over: HalfSecond(rest % DAY.0),
    }
}

// Where in the table a moment stands. At 7465 fen of row 7 that is the loss already.
#[tactic(auto, using(crate::proofs::SignedRows::stretches, crate::proofs::Rows::day_small))]
fn stand_at(at: AnomalySecond) -> Stand
    ensures { result ≡ stand_at at }
{
    let RowPlace { upper, day, over } = place_of(at);
    match day {
        DAY_7 if over < GAINING_IN_7 => Stand {
            row: row_of(upper, DAY_7),
            over,
            stretch: Stretch::GainingIn7,
        },
        DAY_7 => Stand {
            row: losing_row(upper),
            over: HalfSecond(over.0 - GAINING_IN_7.0),
            stretch: Stretch::LosingIn7,
        },
        DAY_14 => Stand {
            row: row_of(upper, day),
            over,
            stretch: Stretch::DayOf14,
        },
        _ => Stand {
            row: row_of(upper, day),
            over,
            stretch: Stretch::WholeDay,
        },
    }
}

// The correction where a moment stands. Each way names its length, so that the compiler divides by constants alone. (A const parameter is no
// `HalfSecond`.)
fn rounded_at(stand: Stand) -> i64
    requires { RoundableRow stand.row stand.over (length_of stand.stretch) }
    ensures { result ≡ rounded_at stand }
{
    let Stand { row, over, stretch } = stand;
    match stretch {
        Stretch::WholeDay => rounded(row, over, DAY),
        Stretch::GainingIn7 => rounded(row, over, GAINING_IN_7),
        Stretch::LosingIn7 => rounded(row, over, LOSING_IN_7),
        Stretch::DayOf14 => rounded(row, over, DAY_OF_14),
    }
}

// The Moon's correction at a moment counted from the start of the count, in fen.
pub fn moon_of(at: AnomalySecond) -> i64
    ensures { result ≡ moon_of at }
{
    rounded_at(stand_at(at))
}

// How the signed correction changes in a day at such a moment, in fen.
#[tactic(auto, using(crate::proofs::Rows::change_at_lem, crate::proofs::Rows::change_small, numbers::proofs::Size::told_word))]
pub fn change_of(at: AnomalySecond) -> i64
    ensures { result ≡ change_of at }
{
    let SignedRow(change, _) = stand_at(at).row;
    change
}
