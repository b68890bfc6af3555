#![tactic(auto)]

ghost use Rattle.std.specs.Prelude.{◌≡◌, ◌≤◌, nat_abs};
ghost use Rattle.senmyo_node.specs.Answers.{grade_means};
ghost use Rattle.senmyo_hours.specs.Hours.{length_of, times_from, eclipse_at};
ghost use Rattle.senmyo_hours.specs.Room.{parts_of, Timed};

use senmyo_node::Grade;
use units::{FEN_IN_DAY, Fen};

// The Moon takes so long for each part, before its own speed is counted in.
const FEN_IN_PART: u64 = 112;

// How long an eclipse lasts, and its start, middle and end, counted from the start of the count.
#[derive(Clone, Copy, Debug, PartialEq, Eq)]
pub struct Times {
    pub length: Fen,
    pub start: Fen,
    pub middle: Fen,
    pub end: Fen,
}

// The parts of an eclipse as a whole number, if there is one.
#[tactic(auto, unfolding(crate::specs::Room::parts_of))]
fn whole_parts(grade: Grade) -> Option<u64>
    ensures { result ≡ parts_of (grade_means grade) }
{
    match grade {
        Grade::None => None,
        Grade::Total => Some(15),
        Grade::Partial(share) => Some(share.parts as u64 + share.strong as u64),
    }
}

// How long so many parts last, when the Moon's correction changes so much in a day.
fn length_of(parts: u64, change: i64) -> Fen
    requires parts_bound { parts ≤ 15 }
    requires change_bound { nat_abs change ≤ 5000 }
    ensures { result ≡ length_of parts change }
{
    let mean = FEN_IN_PART * parts;
    let more = numbers::nearest_of(change * (mean as i64), FEN_IN_DAY);
    Fen(mean.strict_add_signed(more))
}

#[tactic(auto, unfolding(crate::specs::Hours::times_from))]
fn times_from(middle: Fen, length: Fen) -> Times
    requires { Timed middle length }
    ensures { result ≡ times_from middle length }
{
    let start = Fen(middle.0 - length.0 / 2);
    let end = Fen(start.0 + length.0);
    Times {
        length,
        start,
        middle,
        end,
    }
}

// The times of the eclipse of the full moon after new moon `number`, if there is one. The Moon's speed is that at the mean full moon, as its correction is.
#[tactic(auto, unfolding(senmyo::specs::FullMoons::full_moon_sky), using(crate::proofs::HourLaws::eclipse_steps))]
pub fn eclipse_at(number: u32) -> Option<Times>
    ensures { result ≡ eclipse_at number }
{
    let sky = senmyo::full_moon_sky(number);
    let node = senmyo_node::node_of(sky.node);
    let parts = whole_parts(senmyo_node::grade_of(node.distance))?;
    let change = senmyo_moon::change_of(units::byo_to_anomaly_seconds(sky.mean));
    let length = length_of(parts, change);
    Some(times_from(units::byo_to_fen(sky.moment), length))
}
