// The makers' own examples: P10, and each of their refusals where two could be given.
ghost use Rattle.std.specs.Prelude.{◌<◌};

use crate::made::{self, Maker};
use std::io;

// No argument of a maker can be larger.
const LARGEST: usize = usize::MAX;

// P10: the cube of a = 3 and k = 1, with its first quorum and the number of that one's members.
fn p10(rt: &impl Print) -> io::Result<()> {
    let maker = Maker::Cube { a: 3, k: 1 };
    let mut out = [made::BEFORE; 9];
    let made = maker.make(&mut out);
    let quorum = out[0];
    print!(rt; "P10 quorum={quorum} count={}", stations::count(quorum))?;
    made::print_made(rt, maker, made, &out)
}

// An example, in a buffer of so many entries.
fn in_room<const ROOM: usize>(rt: &impl Print, name: &str, maker: Maker) -> io::Result<()>
    requires { ROOM < 65536 }
{
    print!(rt; "{name}")?;
    made::print_in::<ROOM>(rt, maker)
}

fn singleton(rt: &impl Print, name: &str, n: usize, station: usize) -> io::Result<()> {
    in_room::<3>(rt, name, Maker::Singleton { n, station })
}

fn uniform(rt: &impl Print, name: &str, n: usize, k: usize) -> io::Result<()> {
    in_room::<3>(rt, name, Maker::Uniform { n, k })
}

fn cube(rt: &impl Print, name: &str, a: usize, k: usize) -> io::Result<()> {
    in_room::<3>(rt, name, Maker::Cube { a, k })
}

// Document 01's examples of 8, 16, 17 and 18. No table fits an empty buffer.
fn examples(rt: &impl Print) -> io::Result<()> {
    singleton(rt, "refusal 8", 3, 3)?;
    in_room::<0>(rt, "refusal 16", Maker::Singleton { n: 3, station: 1 })?;
    cube(rt, "refusal 17", 2, 3)?;
    uniform(rt, "refusal 18", 9, 1)
}

// 1 before 8, 1 before 2, 2 before 17; 18 and 17 before 16; numbers of any size.
fn in_order(rt: &impl Print) -> io::Result<()> {
    singleton(rt, "1 before 8", quorum::MOST_STATIONS + 1, LARGEST)?;
    uniform(rt, "1 before 2", 0, 0)?;
    cube(rt, "2 before 17", 0, quorum::MOST_UNITS + 1)?;
    uniform(rt, "18 before 16", quorum::MOST_STATIONS, 2)?;
    cube(rt, "17 before 16", 4, 1)
}

fn large_numbers(rt: &impl Print) -> io::Result<()> {
    uniform(rt, "large n", LARGEST, LARGEST)?;
    uniform(rt, "large k", quorum::MOST_STATIONS, LARGEST)?;
    cube(rt, "large a", LARGEST, quorum::MOST_UNITS)?;
    cube(rt, "large power", 2, quorum::MOST_UNITS)?;
    singleton(rt, "large station", quorum::MOST_STATIONS, LARGEST)
}

// Tables of the largest stock, checked at it and at one unit too many.
fn largest_stock(rt: &impl Print) -> io::Result<()> {
    uniform(rt, "uniform of the largest k", 3, quorum::MOST_UNITS)?;
    cube(rt, "cube of the largest k", 1, quorum::MOST_UNITS)
}

// A buffer one entry short, and one that is just enough.
fn just_enough(rt: &impl Print) -> io::Result<()> {
    uniform(rt, "four in three", 4, 2)?;
    uniform(rt, "three in three", 3, 1)
}

pub(crate) fn tables(rt: &impl Print) -> io::Result<()> {
    p10(rt)?;
    examples(rt)?;
    in_order(rt)?;
    large_numbers(rt)?;
    largest_stock(rt)?;
    just_enough(rt)
}
