// A ready-made table: the maker's answer and table, what the check says of the table, and the outages that it survives.
ghost use Rattle.std.specs.Prelude.{◌<◌};

use crate::{counts, table};
use refusals::Refusal;
use std::{fmt, io};

// The entries of a buffer before a table is made: no quorum of twelve stations.
pub(crate) const BEFORE: u16 = 65535;

// A singleton has no k of its own: it is checked at this one.
const SINGLETON_STOCK: usize = 1;

// A maker and what it is given.
#[derive(Clone, Copy)]
pub(crate) enum Maker {
    Singleton { n: usize, station: usize },
    Uniform { n: usize, k: usize },
    Cube { a: usize, k: usize },
}

impl Maker {
    pub(crate) fn make(self, out: &mut [u16]) -> Result<usize, Refusal> {
        match self {
            Maker::Singleton { n, station } => tables::singleton(n, station, out),
            Maker::Uniform { n, k } => tables::uniform(n, k, out),
            Maker::Cube { a, k } => tables::cube(a, k, out),
        }
    }

    // The stations of a table of so many quorums: a cube has as many.
    fn stations(self, quorums: usize) -> usize {
        match self {
            Maker::Singleton { n, station: _ } | Maker::Uniform { n, k: _ } => n,
            Maker::Cube { a: _, k: _ } => quorums,
        }
    }

    fn stock(self) -> usize {
        match self {
            Maker::Singleton { n: _, station: _ } => SINGLETON_STOCK,
            Maker::Uniform { n: _, k } | Maker::Cube { a: _, k } => k,
        }
    }
}

impl fmt::Display for Maker {
    fn fmt<W: fmt::Write>(&self, f: &mut fmt::Formatter<W>) -> fmt::Result {
        match *self {
            Maker::Singleton { n, station } => write!(f, "singleton n={n} station={station}"),
            Maker::Uniform { n, k } => write!(f, "uniform n={n} k={k}"),
            Maker::Cube { a, k } => write!(f, "cube a={a} k={k}"),
        }
    }
}

// The check's answer to the table at a stock of k.
fn print_check(rt: &impl Print, n: usize, k: usize, quorums: &[u16]) -> io::Result<()> {
    let mut scratch = [0u8; quorum::SCRATCH_BYTES];
    print!(rt; " | k={k}")?;
    table::print_answer(rt, quorum::check(n, k, quorums, &mut scratch))
}

// A table is made only for a k within the limit.
fn print_table(rt: &impl Print, n: usize, k: usize, quorums: &[u16]) -> io::Result<()> {
    print!(rt; " members")?;
    for quorum in quorums {
        print!(rt; " {quorum}")?;
    }
    print_check(rt, n, k, quorums)?;
    if k <= quorum::MOST_UNITS {
        print_check(rt, n, k + 1, quorums)?;
    }
    println!(rt; "")?;
    counts::print_line(rt, n, k, quorums)
}

// The answer, how many entries of the buffer are as they were, and where a table was made its quorums, the check's answers at k and at
// k + 1, and the line of its outages.
pub(crate) fn print_made(
    rt: &impl Print,
    maker: Maker,
    made: Result<usize, Refusal>,
    out: &[u16],
) -> io::Result<()> {
    let refusal = refusals::number_in(made);
    let quorums = made.unwrap_or(0);
    let kept = out.iter().filter(|entry| **entry == BEFORE).count();
    print!(rt; " made={refusal} quorums={quorums} kept={kept}")?;
    if 0 < quorums && quorums <= out.len() {
        print_table(rt, maker.stations(quorums), maker.stock(), &out[..quorums])?;
    }
    println!(rt; "")
}

// In a buffer of so many entries.
pub(crate) fn print_in<const ROOM: usize>(rt: &impl Print, maker: Maker) -> io::Result<()>
    requires { ROOM < 65536 }
{
    let mut out = [BEFORE; ROOM];
    let made = maker.make(&mut out);
    print_made(rt, maker, made, &out)
}
