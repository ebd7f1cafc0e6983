// The ready-made tables, each behind its maker's name and arguments.
use crate::made::{self, Maker};
use std::io;

// Room for every table, and some entries more.
const ROOM: usize = quorum::MOST_QUORUMS + 6;

fn print(rt: &impl Print, maker: Maker) -> io::Result<()> {
    print!(rt; "{maker}")?;
    made::print_in::<ROOM>(rt, maker)
}

// From k = n - 1 on the one set of all stations is all that there is.
fn of_stations(rt: &impl Print, n: usize) -> io::Result<()> {
    for station in 0..n {
        print(rt, Maker::Singleton { n, station })?;
    }
    for k in 1..=n {
        print(rt, Maker::Uniform { n, k })?;
    }
    Ok(())
}

fn cubes_of(rt: &impl Print, a: usize) -> io::Result<()> {
    for k in 1..4 {
        print(rt, Maker::Cube { a, k })?;
    }
    Ok(())
}

// Every singleton and uniform table of up to twelve stations, and the cubes.
pub(crate) fn tables(rt: &impl Print) -> io::Result<()> {
    for n in 1..=quorum::MOST_STATIONS {
        of_stations(rt, n)?;
    }
    for a in 0..5 {
        cubes_of(rt, a)?;
    }
    Ok(())
}
