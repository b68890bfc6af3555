#![tactic(auto)]

ghost use Rattle.std.specs.Prelude.{◌≡◌, ◌-◌, ◌/◌, ◌<◌, ◌≤◌, ◌^◌, pos, nat_abs, ◌+ℤ◌};
ghost use Rattle.numbers.specs.Sign.{whole};
ghost use Rattle.senmyo_means.specs.Means.{mean_new_moon};
ghost use Rattle.senmyo.specs.Phases.{moon_at, new_moon, advanced_day, new_moon_day};
ghost use Rattle.senmyo.specs.FullMoons.{correction_to_byo, full_moon_sky};
ghost use Rattle.senmyo.specs.Room.{latest_month, sure_month, Movable};

use senmyo_means::{MONTH, mean_full_moon, mean_new_moon};
use senmyo_moon::moon_of;
use senmyo_node::NodeSecond;
use senmyo_sun::sun_of;
use units::{BYO_IN_FEN, Byo, FEN_IN_DAY, Fen};

// From this fen of its day on, a new moon counts to the next day.
const ADVANCE: u64 = 6300;

// Sun and Moon together put no new moon farther before its mean, or behind it.
const MOST_EARLY: u64 = 1526 + 3195;

const MOST_LATE: u64 = 1526 + 3225;

// A full moon as the sky has it: its mean moment, the corrections at that moment, in fen, the true moment, exactly, and the place from the node.
#[derive(Clone, Copy, Debug, PartialEq, Eq)]
pub struct Sky {
    pub mean: Byo,
    pub sun: i64,
    pub moon: i64,
    pub moment: Byo,
    pub node: NodeSecond,
}

// The Moon's correction at a mean moment, in fen. (The Sun's is `sun_of`.)
fn moon_at(mean: Byo) -> i64
    requires { mean.0 < 2 ^ 57 }
    ensures { result ≡ moon_at mean }
{
    moon_of(units::byo_to_anomaly_seconds(mean))
}

// A named conversion, as those of `units` are.
fn correction_to_byo(fen: i64) -> i64
    requires { nat_abs fen ≤ 10000 }
    ensures { result ≡ correction_to_byo fen }
{
    fen * (BYO_IN_FEN as i64)
}

// A count, and a signed one of the same unit that moves it. (`strict_add_signed` branches on the sign, and was slower.)
fn moved(count: u64, by: i64) -> u64
    requires { Movable count by }
    ensures { result ≡ whole (pos count +ℤ by) }
{
    (count as i64 + by) as u64
}

// The true new moon.
pub fn new_moon(number: u32) -> Fen
    ensures { result ≡ new_moon number }
{
    let mean = mean_new_moon(number);
    let at = units::fen_to_byo(mean);
    let sun = sun_of(at);
    Fen(moved(mean.0, sun + moon_at(at)))
}

// The day to which a new moon at this moment counts, in whole days from the start of the count.
#[tactic(auto, using(crate::proofs::PhaseLaws::advance_is_floor))]
pub fn advanced_day(moment: Fen) -> u64
    requires { moment.0 < 2 ^ 63 }
    ensures { result ≡ advanced_day moment }
{
    units::whole_days(Fen(moment.0 + (FEN_IN_DAY - ADVANCE)))
}

// The day of the true new moon, in whole days from the start of the count.
#[tactic(auto, using(crate::proofs::NearMean::new_moon_small))]
pub fn new_moon_day(number: u32) -> u64
    ensures { result ≡ new_moon_day number }
{
    advanced_day(new_moon(number))
}

// The last mean new moon before a moment.
fn last_before(moment: Fen) -> u32
    requires some { 0 < moment.0 }
    requires small { moment.0 < 2 ^ 49 }
    ensures { result ≡ (moment.0 - 1) / (mean_new_moon 1).0 }
{
    ((moment.0 - 1) / MONTH.0) as u32
}

// The last new moon that may count to a day or to one before: it falls before the day's advance, and its mean is so much later at most.
pub fn latest_month(day: u32) -> u32
    ensures { result ≡ latest_month day }
{
    last_before(Fen(FEN_IN_DAY * (day as u64) + ADVANCE + MOST_EARLY))
}

// The last new moon that is sure to: it falls before the day's advance even if it is as late as can be.
pub fn sure_month(day: u32) -> u32
    ensures { result ≡ sure_month day }
{
    last_before(Fen(FEN_IN_DAY * (day as u64) + ADVANCE - MOST_LATE))
}

// The sky at the full moon after new moon `number`.
pub fn full_moon_sky(number: u32) -> Sky
    ensures { result ≡ full_moon_sky number }
{
    let mean = mean_full_moon(number);
    let sun = sun_of(mean);
    let moon = moon_at(mean);
    let moment = Byo(moved(mean.0, correction_to_byo(sun + moon)));
    let node = senmyo_node::node_place(mean, sun, moon);
    Sky {
        mean,
        sun,
        moon,
        moment,
        node,
    }
}
