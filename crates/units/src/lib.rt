#![tactic(auto)]

ghost use Rattle.std.specs.Prelude.{◌≡◌, ◌*◌, ◌<◌, ◌^◌};
ghost use Rattle.units.specs.Units.{fen_to_byo, byo_to_fen, byo_to_anomaly_seconds, whole_days, fen_of_day, whole_ke, fen_over_ke};

// A day is 8,400 fen, a fen 8 byo.
pub const FEN_IN_DAY: u64 = 8400;

pub const BYO_IN_FEN: u64 = 8;

pub const BYO_IN_DAY: u64 = FEN_IN_DAY * BYO_IN_FEN;

// A ke, of which a day has 100, is 84 fen.
const FEN_IN_KE: u64 = 84;

// 1/8,400 of a day.
#[derive(Clone, Copy, Debug, PartialEq, Eq, PartialOrd, Ord)]
pub struct Fen(pub u64);

// 1/8 fen.
#[derive(Clone, Copy, Debug, PartialEq, Eq, PartialOrd, Ord)]
pub struct Byo(pub u64);

// 1/100 fen.
#[derive(Clone, Copy, Debug, PartialEq, Eq, PartialOrd, Ord)]
pub struct AnomalySecond(pub u64);

// 1/100 of a day.
#[derive(Clone, Copy, Debug, PartialEq, Eq, PartialOrd, Ord)]
pub struct Ke(pub u64);

// One unit becomes another by a named function, as 01 asks; a `From` could not require that the product fits its word.
pub fn fen_to_byo(moment: Fen) -> Byo
    requires { moment.0 * 8 < 2 ^ 64 }
    ensures { result ≡ fen_to_byo moment }
{
    Byo(moment.0 * BYO_IN_FEN)
}

// The whole fen: what is left of one is dropped.
pub fn byo_to_fen(moment: Byo) -> Fen
    ensures { result ≡ byo_to_fen moment }
{
    Fen(moment.0 / BYO_IN_FEN)
}

// The whole anomaly seconds: an odd byo's half is dropped.
pub fn byo_to_anomaly_seconds(moment: Byo) -> AnomalySecond
    requires { moment.0 * 100 < 2 ^ 64 }
    ensures { result ≡ byo_to_anomaly_seconds moment }
{
    AnomalySecond(moment.0 * 100 / BYO_IN_FEN)
}

pub fn whole_days(moment: Fen) -> u64
    ensures { result ≡ whole_days moment }
{
    moment.0 / FEN_IN_DAY
}

pub fn fen_of_day(moment: Fen) -> Fen
    ensures { result ≡ fen_of_day moment }
{
    Fen(moment.0 % FEN_IN_DAY)
}

pub fn whole_ke(fen: Fen) -> Ke
    ensures { result ≡ whole_ke fen }
{
    Ke(fen.0 / FEN_IN_KE)
}

pub fn fen_over_ke(fen: Fen) -> Fen
    ensures { result ≡ fen_over_ke fen }
{
    Fen(fen.0 % FEN_IN_KE)
}
