#![tactic(auto)]

ghost use Rattle.std.specs.Prelude.{◌≡◌, ◌-◌, ◌*◌, ◌/◌, ◌<◌, ◌≤◌, get_or};
ghost use Rattle.units.specs.Units.{byo, fen_to_byo};
ghost use Rattle.senmyo_means.specs.Means.{solar_year};
ghost use Rattle.senmyo_sun.specs.Sun.{solstice_row, later_rows, sun_rows, no_row, place_in, after_days, on_day, sun_of};
ghost use Rattle.senmyo_sun.specs.Room.{start_of, TermAt, DaysInTerm};

use senmyo_means::SOLAR_YEAR;
use units::{BYO_IN_DAY, BYO_IN_FEN, Byo};

// A true term as the page prints it: rate, first and sum in 1/10,000 fen. (Its span is in `STARTS`.) With names a row would take five lines.
#[derive(Clone, Copy, Debug, PartialEq, Eq)]
pub struct Term(pub i64, pub i64, pub i64);

// A true term, and how far into it a moment stands.
#[derive(Clone, Copy, Debug, PartialEq, Eq)]
pub struct TermPlace {
    pub term: Term,
    pub into: Byo,
}

// From a solstice to the next, and the mean of its 24 terms.
const YEAR: Byo = Byo(SOLAR_YEAR.0 * BYO_IN_FEN);

const MEAN_TERM: Byo = Byo(YEAR.0 / 24);

// The 24 true terms from the solstice (003, Table 2, with Xiaohan's first mended). (`STARTS` has one place more, so that they are two arrays.)
static TRUE_TERMS: [Term; 24] = [
    Term(-0_3695, 33_4511, 0),
    Term(-0_3606, 28_0316, 449_0000),
    Term(-0_3519, 22_6998, 823_0000),
    Term(-0_4068, 17_8923, 1122_0000),
    Term(-0_3998, 11_7966, 1346_0000),
    Term(-0_3998, 5_7986, 1481_0000),
    Term(-0_3779, -0_2433, 1526_0000),
    Term(-0_3634, -6_1254, 1481_0000),
    Term(-0_2987, -12_2048, 1346_0000),
    Term(-0_2919, -16_9060, 1122_0000),
    Term(-0_2854, -21_5362, 823_0000),
    Term(-0_2854, -26_0498, 449_0000),
    Term(0_2854, -30_3119, 0),
    Term(0_2919, -25_8126, -449_0000),
    Term(0_2987, -21_2454, -823_0000),
    Term(0_3634, -17_0296, -1122_0000),
    Term(0_3779, -11_4744, -1346_0000),
    Term(0_3779, -5_6429, -1481_0000),
    Term(0_3998, 0_1432, -1526_0000),
    Term(0_4068, 6_1488, -1481_0000),
    Term(0_3519, 12_6336, -1346_0000),
    Term(0_3606, 17_8043, -1122_0000),
    Term(0_3695, 23_0590, -823_0000),
    Term(0_3695, 28_4618, -449_0000),
];

fn true_term(number: usize) -> Term
    requires { number < 24 }
    ensures { result ≡ (get_or sun_rows number no_row).term }
{
    TRUE_TERMS[number]
}

// Where the 24 true terms start, counted from the solstice: each after the one before it by that one's span, which stands here as printed, in days, fen
// and byo (003, Table 1). A constant's value calls no function of ours, so that a sum over the spans would be worked out at each look-up: each names the one before.
const DONGZHI: Byo = Byo(0);

const XIAOHAN: Byo = Byo(DONGZHI.0 + 14 * BYO_IN_DAY + 4235 * BYO_IN_FEN + 5);

const DAHAN: Byo = Byo(XIAOHAN.0 + 14 * BYO_IN_DAY + 5235 * BYO_IN_FEN + 5);

const LICHUN: Byo = Byo(DAHAN.0 + 14 * BYO_IN_DAY + 6235 * BYO_IN_FEN + 5);

const YUSHUI: Byo = Byo(LICHUN.0 + 14 * BYO_IN_DAY + 7235 * BYO_IN_FEN + 5);

const JINGZHE: Byo = Byo(YUSHUI.0 + 15 * BYO_IN_DAY + 35 * BYO_IN_FEN + 5);

const CHUNFEN: Byo = Byo(JINGZHE.0 + 15 * BYO_IN_DAY + 1235 * BYO_IN_FEN + 5);

const QINGMING: Byo = Byo(CHUNFEN.0 + 15 * BYO_IN_DAY + 2435 * BYO_IN_FEN + 5);

const GUYU: Byo = Byo(QINGMING.0 + 15 * BYO_IN_DAY + 3635 * BYO_IN_FEN + 5);

const LIXIA: Byo = Byo(GUYU.0 + 15 * BYO_IN_DAY + 4835 * BYO_IN_FEN + 5);

const XIAOMAN: Byo = Byo(LIXIA.0 + 15 * BYO_IN_DAY + 5835 * BYO_IN_FEN + 5);

const MANGZHONG: Byo = Byo(XIAOMAN.0 + 15 * BYO_IN_DAY + 6835 * BYO_IN_FEN + 5);

const XIAZHI: Byo = Byo(MANGZHONG.0 + 15 * BYO_IN_DAY + 7835 * BYO_IN_FEN + 5);

const XIAOSHU: Byo = Byo(XIAZHI.0 + 15 * BYO_IN_DAY + 7835 * BYO_IN_FEN + 5);

const DASHU: Byo = Byo(XIAOSHU.0 + 15 * BYO_IN_DAY + 6835 * BYO_IN_FEN + 5);

const LIQIU: Byo = Byo(DASHU.0 + 15 * BYO_IN_DAY + 5835 * BYO_IN_FEN + 5);

const CHUSHU: Byo = Byo(LIQIU.0 + 15 * BYO_IN_DAY + 4835 * BYO_IN_FEN + 5);

const BAILU: Byo = Byo(CHUSHU.0 + 15 * BYO_IN_DAY + 3635 * BYO_IN_FEN + 5);

const QIUFEN: Byo = Byo(BAILU.0 + 15 * BYO_IN_DAY + 2435 * BYO_IN_FEN + 5);

const HANLU: Byo = Byo(QIUFEN.0 + 15 * BYO_IN_DAY + 1235 * BYO_IN_FEN + 5);

const SHUANGJIANG: Byo = Byo(HANLU.0 + 15 * BYO_IN_DAY + 35 * BYO_IN_FEN + 5);

const LIDONG: Byo = Byo(SHUANGJIANG.0 + 14 * BYO_IN_DAY + 7235 * BYO_IN_FEN + 5);

const XIAOXUE: Byo = Byo(LIDONG.0 + 14 * BYO_IN_DAY + 6235 * BYO_IN_FEN + 5);

const DAXUE: Byo = Byo(XIAOXUE.0 + 14 * BYO_IN_DAY + 5235 * BYO_IN_FEN + 5);

const NEXT_DONGZHI: Byo = Byo(DAXUE.0 + 14 * BYO_IN_DAY + 4235 * BYO_IN_FEN + 5);

// The starts in their order, and the end of the year.
static STARTS: [Byo; 25] = [
    DONGZHI,
    XIAOHAN,
    DAHAN,
    LICHUN,
    YUSHUI,
    JINGZHE,
    CHUNFEN,
    QINGMING,
    GUYU,
    LIXIA,
    XIAOMAN,
    MANGZHONG,
    XIAZHI,
    XIAOSHU,
    DASHU,
    LIQIU,
    CHUSHU,
    BAILU,
    QIUFEN,
    HANLU,
    SHUANGJIANG,
    LIDONG,
    XIAOXUE,
    DAXUE,
    NEXT_DONGZHI,
];

// From the solstice to the start of a term; for 24, to the end of the year.
fn start_of(number: usize) -> Byo
    requires { number ≤ 24 }
    ensures { result ≡ byo (start_of number) }
{
    STARTS[number]
}

// The true term that a moment counted from the solstice falls in. Each starts within half a mean term of the mean one of its number, so it is the one
// that by the mean starts nearest to the moment, or the one before.
#[tactic(auto, using(crate::proofs::Terms::at_nearest, crate::proofs::Terms::before_nearest))]
fn term_at(since_solstice: Byo) -> usize
    requires { since_solstice.0 < (fen_to_byo solar_year).0 }
    ensures { TermAt result since_solstice.0 }
{
    let nearest = ((2 * since_solstice.0 + MEAN_TERM.0) / (2 * MEAN_TERM.0)) as usize;
    if since_solstice < start_of(nearest) {
        nearest - 1
    } else {
        nearest
    }
}

// That term, and how far into it the moment stands.
#[tactic(auto, using(crate::proofs::Terms::place_at))]
fn place_of(since_solstice: Byo) -> TermPlace
    requires { since_solstice.0 < (fen_to_byo solar_year).0 }
    ensures { result ≡ place_in solstice_row later_rows since_solstice.0 }
{
    let number = term_at(since_solstice);
    TermPlace {
        term: true_term(number),
        into: Byo(since_solstice.0 - start_of(number).0),
    }
}

// n(n - 1)/2.
fn pairs_of(days: u64) -> u64
    requires { days < 16 }
    ensures { result ≡ days * (days - 1) / 2 }
{
    (days * days - days) / 2
}

impl Term {
    // The correction after whole days in a term, in 1/10,000 fen.
    fn after_days(self, days: u64) -> i64
        requires { DaysInTerm self days }
        ensures { result ≡ after_days self days }
    {
        let Term(rate, first, sum) = self;
        let pairs = pairs_of(days);
        sum + first * (days as i64) + rate * (pairs as i64)
    }

    // What it changes by in the day after that, in 1/10,000 fen.
    fn on_day(self, days: u64) -> i64
        requires { DaysInTerm self days }
        ensures { result ≡ on_day self days }
    {
        let Term(rate, first, _) = self;
        first + rate * (days as i64)
    }
}

// The Sun's correction at a moment counted from the start of the count, in fen. (Kept out of line: where the compiler takes it into a new moon's, that is too
// large to stand in a look-up, and Genka's look-ups, which need none, pay for the call.)
#[inline(never)]
pub fn sun_of(at: Byo) -> i64
    ensures { result ≡ sun_of at }
{
    let place = place_of(Byo(at.0 % YEAR.0));
    let days = place.into.0 / BYO_IN_DAY;
    let rest = place.into.0 % BYO_IN_DAY;
    let share = place.term.after_days(days) * (BYO_IN_DAY as i64)
        + place.term.on_day(days) * (rest as i64);
    numbers::nearest_of(share, 10000 * BYO_IN_DAY)
}
