#![tactic(auto)]

ghost use Rattle.std.specs.Prelude.{◌≡◌};
ghost use Rattle.answers.specs.Answer.{told};
ghost use Rattle.months_rules.specs.Rules.{senmyo};
ghost use Rattle.months.specs.Room.{Covering};
ghost use Rattle.calendar_eclipses.specs.Eclipses.{full_moon_at, eclipse_asked, eclipse_of};
ghost use Rattle.calendar_eclipses.specs.Answers.{eclipse_means};

use answers::Refusal;
use months_rules::Calendar;
use senmyo_node::{Grade, Side};
use units::Fen;

// The full moon of a month: its day number, the fen of that day, and where it stands from the node.
#[derive(Clone, Copy, Debug, PartialEq, Eq)]
pub struct FullMoon {
    pub day: u32,
    pub fen: Fen,
    pub side: Side,
    pub distance: Fen,
}

// The month whose eclipse is asked for, by the number of its new moon. Only Senmyo has eclipses.
pub fn asked_eclipse(calendar: u64, year: u64, month: u64, leap: bool) -> Result<u32, Refusal>
    ensures { told result ≡ eclipse_asked calendar year month leap }
{
    match Calendar::try_from(calendar)? {
        Calendar::Genka => Err(Refusal::EclipseOfGenka),
        Calendar::Senmyo => {
            let (_, found) = calendar_month::asked_moon(calendar, year, month, leap)?;
            Ok(found)
        }
    }
}

fn full_moon_at(month: u32) -> FullMoon
    requires { Covering senmyo month }
    ensures { result ≡ full_moon_at month }
{
    let sky = senmyo::full_moon_sky(month);
    let moment = units::byo_to_fen(sky.moment);
    let node = senmyo_node::node_of(sky.node);
    let side = node.side;
    let distance = node.distance;
    FullMoon {
        day: (units::whole_days(moment) - Calendar::Senmyo.numbers().day_zero) as u32,
        fen: units::fen_of_day(moment),
        side,
        distance,
    }
}

// The full moon of a month, and how far it is eclipsed.
pub fn eclipse_of(
    calendar: u64,
    year: u64,
    month: u64,
    leap: bool,
) -> Result<(FullMoon, Grade), Refusal>
    ensures { eclipse_means result ≡ eclipse_of calendar year month leap }
{
    let found = asked_eclipse(calendar, year, month, leap)?;
    let moon = full_moon_at(found);
    Ok((moon, senmyo_node::grade_of(moon.distance)))
}
