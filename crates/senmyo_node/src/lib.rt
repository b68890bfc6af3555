#![tactic(auto)]

ghost use Rattle.std.specs.Prelude.{◌≡◌, ◌*◌, ◌<◌, ◌≤◌, ◌^◌, nat_abs};
ghost use Rattle.senmyo_node.specs.Eclipse.{node_period, byo_to_node_seconds, moon_share, half_node_period, node_place, distance_of, node_of, grade_of};
ghost use Rattle.senmyo_node.specs.Answers.{grade_means};
ghost use Rattle.senmyo_node.specs.Room.{Placeable};

use units::{BYO_IN_FEN, Byo, Fen};

const NODE_SECONDS_IN_FEN: u64 = 10_000;

const NODE_SECONDS_IN_BYO: u64 = NODE_SECONDS_IN_FEN / BYO_IN_FEN;

// The node's period, 228,582.6512 fen, and half of it.
const PERIOD: NodeSecond = NodeSecond(228582_6512);

const HALF: NodeSecond = NodeSecond(PERIOD.0 / 2);

// From this distance on there is no eclipse; up to `TOTAL` it is total.
const LIMIT: Fen = Fen(9737);

const TOTAL: Fen = Fen(2147);

// 1/10,000 fen.
#[derive(Clone, Copy, Debug, PartialEq, Eq, PartialOrd, Ord)]
pub struct NodeSecond(pub u64);

#[derive(Clone, Copy, Debug, PartialEq, Eq)]
pub enum Side {
    Yang,
    Yin,
}

// Where the full moon stands from the node.
#[derive(Clone, Copy, Debug, PartialEq, Eq)]
pub struct Node {
    pub side: Side,
    pub distance: Fen,
}

// How much of the Moon is eclipsed: parts of fifteen, and the remainder, which is strong or weak.
#[derive(Clone, Copy, Debug, PartialEq, Eq)]
pub struct Share {
    pub parts: u8,
    pub remainder: u16,
    pub strong: bool,
}

#[derive(Clone, Copy, Debug, PartialEq, Eq)]
pub enum Grade {
    None,
    Total,
    Partial(Share),
}

// A named conversion, as those of `units` are.
fn byo_to_node_seconds(moment: Byo) -> NodeSecond
    requires { moment.0 * 1250 < 2 ^ 64 }
    ensures { result ≡ byo_to_node_seconds moment }
{
    NodeSecond(moment.0 * NODE_SECONDS_IN_BYO)
}

fn moon_share(moon: i64) -> i64
    requires { nat_abs moon ≤ 10000 }
    ensures { result ≡ moon_share moon }
{
    numbers::nearest_of(moon * 202, 2573)
}

// The place from the node at a mean moment, with the corrections taken at it.
#[tactic(auto, using(crate::proofs::NodeLaws::shares))]
pub fn node_place(mean: Byo, sun: i64, moon: i64) -> NodeSecond
    requires { Placeable mean sun moon }
    ensures { result ≡ node_place mean sun moon }
{
    let past = byo_to_node_seconds(mean).0 % PERIOD.0;
    let correction = sun + moon_share(moon);
    let place = past as i64 + correction * (NODE_SECONDS_IN_FEN as i64);
    NodeSecond(place.rem_euclid(PERIOD.0 as i64) as u64)
}

// The distance of a place in half a period from the nearer end of it, rounded.
#[tactic(auto, using(crate::proofs::NodeLaws::distance_is))]
fn distance_of(place: NodeSecond) -> Fen
    requires { place.0 ≤ half_node_period.0 }
    ensures { result ≡ distance_of place }
{
    let nearer = place.0.min(HALF.0 - place.0);
    Fen((nearer + NODE_SECONDS_IN_FEN / 2) / NODE_SECONDS_IN_FEN)
}

// The side and the distance of a place.
#[tactic(auto, using(crate::proofs::NodeLaws::node_yin, crate::proofs::NodeLaws::node_yang))]
pub fn node_of(place: NodeSecond) -> Node
    requires { place.0 < node_period.0 }
    ensures { result ≡ node_of place }
{
    if HALF < place {
        Node {
            side: Side::Yin,
            distance: distance_of(NodeSecond(place.0 - HALF.0)),
        }
    } else {
        Node {
            side: Side::Yang,
            distance: distance_of(place),
        }
    }
}

// What a distance says of the eclipse.
#[tactic(auto, unfolding(crate::specs::Eclipse::grade_of))]
pub fn grade_of(distance: Fen) -> Grade
    ensures { grade_means result ≡ grade_of distance }
{
    if LIMIT <= distance {
        return Grade::None;
    }
    if distance <= TOTAL {
        return Grade::Total;
    }
    let short = LIMIT.0 - distance.0;
    Grade::Partial(Share {
        parts: (short / 506) as u8,
        remainder: (short % 506) as u16,
        strong: 253 <= short % 506,
    })
}
