// Lunar eclipses.
ghost use Rattle.std.specs.Prelude.{◌≤◌};

use senmyo_node::{Grade, NodeSecond};
use std::io;
use units::{Byo, Fen};

fn print_grade(rt: &impl Print, distance: u64) -> io::Result<()> {
    print!(rt; "eclipse at {distance}: ")?;
    match senmyo_node::grade_of(Fen(distance)) {
        Grade::None => println!(rt; "none"),
        Grade::Total => println!(rt; "total"),
        Grade::Partial(share) => println!(rt;
            "{} {} {}",
            share.parts,
            share.remainder,
            u8::from(share.strong)
        ),
    }
}

pub fn print_grades(rt: &impl Print) -> io::Result<()> {
    for distance in [2147, 2148, 8978, 8979, 9736, 9737] {
        print_grade(rt, distance)?;
    }
    Ok(())
}

fn print_node(rt: &impl Print, place: u64) -> io::Result<()>
    requires { place ≤ 2285826511 }
{
    let node = senmyo_node::node_of(NodeSecond(place));
    print!(rt; " {} {}", node.side as u8, node.distance.0)
}

pub fn print_nodes(rt: &impl Print) -> io::Result<()> {
    print!(rt; "side (0 yang, 1 yin) and distance at seven places near the nodes and midway:")?;
    print_node(rt, 4_999)?;
    print_node(rt, 5_000)?;
    print_node(rt, 571_456_628)?;
    print_node(rt, 1_142_908_256)?;
    print_node(rt, 1_142_913_256)?;
    print_node(rt, 1_142_913_257)?;
    print_node(rt, 2_285_821_512)?;
    println!(rt)
}

pub fn print_node_places(rt: &impl Print) -> io::Result<()> {
    println!(rt;
        "node places in ten-thousandths of a fen, at 1828662 byo, and at 0 with Sun 1 and -1, with Moon 3217, 3216 and -7: {} {} {} {} {} {}",
        senmyo_node::node_place(Byo(1_828_662), 0, 0).0,
        senmyo_node::node_place(Byo(0), 1, 0).0,
        senmyo_node::node_place(Byo(0), -1, 0).0,
        senmyo_node::node_place(Byo(0), 0, 3217).0,
        senmyo_node::node_place(Byo(0), 0, 3216).0,
        senmyo_node::node_place(Byo(0), 0, -7).0
    )
}
