// Many calls on a record of twelve stations, to measure what a call costs: one quorum of all stations, so each round of a station visits
// every arbiter to collect and again to give back.
#![tactic(auto)]

ghost use Rattle.std.specs.Prelude.{◌<◌};

use records::Record;
use std::io;

const ROUNDS: usize = 5000;

const CALLS_A_ROUND: usize = 38;

// Units entered and left, the number of calls refused, and the record.
#[derive(Clone, Copy)]
struct Tally {
    entered: usize,
    left: usize,
    refused: usize,
    record: Record,
}

// Counts go no further.
const MOST_COUNTED: usize = 1000000;

// So many more, as far as the count has room.
fn more(count: usize, by: usize) -> usize
    requires { by < 65536 }
{
    if count < MOST_COUNTED {
        count + by
    } else {
        count
    }
}

// One more call is counted.
fn counted(t: Tally, a: calls::Answer) -> Tally {
    let record = a.record;
    match a.outcome {
        Ok(returned) => Tally {
            entered: more(t.entered, units::number_of(returned.entered) as usize),
            left: more(t.left, units::number_of(returned.left) as usize),
            refused: t.refused,
            record,
        },
        Err(_) => Tally {
            entered: t.entered,
            left: t.left,
            refused: more(t.refused, 1),
            record,
        },
    }
}

// Up and Down at every arbiter. Not one with `clear`: that makes another call.
fn collect(t: Tally, s: usize) -> Tally {
    let mut next = t;
    for j in 0..records::STATIONS {
        next = counted(next, calls::up(next.record, s, j));
        next = counted(next, calls::down(next.record, s, j));
    }
    next
}

// Up at every arbiter, for the RELEASE.
fn clear(t: Tally, s: usize) -> Tally {
    let mut next = t;
    for j in 0..records::STATIONS {
        next = counted(next, calls::up(next.record, s, j));
    }
    next
}

fn round(t: Tally, s: usize) -> Tally {
    let asked = counted(t, calls::request(t.record, s, 0, 1));
    let holding = collect(asked, s);
    let given = counted(holding, calls::release(holding.record, s));
    clear(given, s)
}

fn rounds(record: Record) -> Tally {
    let mut t = Tally {
        entered: 0,
        left: 0,
        refused: 0,
        record,
    };
    for i in 0..ROUNDS {
        t = round(t, i % records::STATIONS);
    }
    t
}

fn main(rt: HostRuntime) -> io::Result<()> {
    let mut scratch = [0u8; quorum::SCRATCH_BYTES];
    let opened = machine::open(12, 200, &[4095u16], &mut scratch);
    let t = rounds(opened.record);
    let calls = ROUNDS * CALLS_A_ROUND;
    println!(rt;
        "calls={calls} entered={} left={} refused={}",
        t.entered, t.left, t.refused
    )
}
