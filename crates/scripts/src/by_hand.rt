// Records made by hand, from what opening hands back.
ghost use Rattle.std.specs.Prelude.{◌≡◌, ◌<◌};
ghost use Rattle.scripts.specs.declared.by_hand.Way.TheVariants.{Up, Down};

use plain::{Entry, Message, Phase};
use records::{Arbiter, LINE_PLACES, Lane, Record, STATIONS, Slot, Station, UP_PLACES};
use std::fmt;
use units::Units;

// A fresh record, made without a line of its own.
pub fn fresh(n: usize, k: usize, quorums: &[u16]) -> Record {
    let mut scratch = [0u8; quorum::SCRATCH_BYTES];
    machine::open(n, k, quorums, &mut scratch).record
}

// Of n stations 0 alone is asked.
pub fn one_asked(n: usize, k: usize) -> Record {
    fresh(n, k, &[1])
}

// Any units that a byte can hold, in range or not.
pub fn units(number: u8) -> Units {
    Units { positions: number }
}

pub fn request(number: u8) -> Message {
    Message::Request(units(number))
}

pub fn collecting(quorum: u8, number: u8, member: u8) -> Phase {
    Phase::Collecting {
        quorum,
        units: units(number),
        member,
    }
}

pub fn holding(quorum: u8, number: u8) -> Phase {
    Phase::Holding {
        quorum,
        units: units(number),
    }
}

// The same message in all places of the lane.
pub fn lane(len: u8, message: Message) -> Lane {
    let slot = Slot { message };
    Lane {
        len,
        slots: [slot; UP_PLACES],
    }
}

// The lanes up, from stations to arbiters, or those down.
#[derive(Clone, Copy)]
pub enum Way {
    Up,
    Down,
}

impl fmt::Display for Way {
    fn fmt<W: fmt::Write>(&self, f: &mut fmt::Formatter<W>) -> fmt::Result {
        f.write_str(match self {
            Way::Up => "up",
            Way::Down => "down",
        })
    }
}

// With another lane between station s and arbiter j.
pub fn with_lane(r: Record, way: Way, s: usize, j: usize, lane: Lane) -> Record
    requires { (s < 12) × (j < 12) }
    ensures kept { (result.n ≡ r.n) × (result.stock ≡ r.stock) × (result.quorums ≡ r.quorums) × (result.table ≡ r.table) × (result.stations ≡ r.stations) × (result.arbiters ≡ r.arbiters) }
    ensures other_way { (way ≡ Up → result.down ≡ r.down) × (way ≡ Down → result.up ≡ r.up) }
{
    let mut next = r;
    match way {
        Way::Up => next.up.rows[s].lanes[j] = lane,
        Way::Down => next.down.rows[s].lanes[j] = lane,
    }
    next
}

pub fn with_phase(r: Record, s: usize, phase: Phase) -> Record
    requires { s < 12 }
{
    let mut next = r;
    next.stations[s] = Station { phase };
    next
}

// The same entry in all places of the line, and nothing granted.
pub fn waiting(len: u8, station: u8, number: u8) -> Arbiter {
    let entry = Entry {
        station,
        units: units(number),
    };
    Arbiter {
        granted: [units(0); STATIONS],
        len,
        line: [entry; LINE_PLACES],
    }
}

pub fn with_arbiter(r: Record, j: usize, a: Arbiter) -> Record
    requires { j < 12 }
{
    let mut next = r;
    next.arbiters[j] = a;
    next
}
