// The machine's record, and the test whether it is in range. A caller may make a record by hand with any content: places of
// an array beyond its length, and what belongs to stations from n on, are no part of it.
#![tactic(auto)]

// No `all`, `get` or `?` in this crate: the program that `program-has` of `claim` is of has no function of the library.

ghost use Rattle.std.specs.Prelude.{◌&&◌, ◌≡◌, leb};
ghost use Rattle.plain.specs.InRange.{in_range, arbiter_in as arbiter_in_rule};
ghost use Rattle.quorum.specs.Limits.{most_stations};
ghost use Rattle.records.specs.View.{arbiter_of, view};

use bounds::Bounds;
use lane_range::Direction;
use plain::{Entry, Message, Phase};
use units::Units;

mod arbiter_range;
mod bounds;
mod lane_range;
mod limits;
mod station_range;

// A record has room for so many stations, and a line for so many entries.
pub const STATIONS: usize = quorum::MOST_STATIONS;

pub const LINE_PLACES: usize = 12;

// Document 01's limits of a lane. A lane down is kept in the same array as a lane up.
pub const UP_PLACES: usize = 4;

pub const DOWN_PLACES: usize = 2;

#[derive(Clone, Copy)]
pub struct Slot {
    pub message: Message,
}

// Messages under way from a station to an arbiter, or back, oldest first.
// No Vec: there is no heap, and a record is a value of fixed size. So it is of the table and of a line.
#[derive(Clone, Copy)]
pub struct Lane {
    pub len: u8,
    pub slots: [Slot; UP_PLACES],
}

// The lanes of one station, by arbiter.
#[derive(Clone, Copy)]
pub struct Row {
    pub lanes: [Lane; STATIONS],
}

// The lanes of all stations.
#[derive(Clone, Copy)]
pub struct Lanes {
    pub rows: [Row; STATIONS],
}

#[derive(Clone, Copy)]
pub struct Station {
    pub phase: Phase,
}

// The units granted to each station, and the line of those that wait, oldest first.
// C has it with this layout, and fills it with anything: the length is no part of a type that keeps to the array.
#[repr(C)]
#[derive(Clone, Copy)]
pub struct Arbiter {
    pub granted: [Units; STATIONS],
    pub len: u8,
    pub line: [Entry; LINE_PLACES],
}

// What belongs to a station stands in arrays of its kind, as the definitions read it (`view`): no call needs all that is one station's.
#[derive(Clone, Copy)]
pub struct Record {
    pub n: u8,
    pub stock: Units,
    pub quorums: u8,
    pub table: [u16; quorum::MOST_QUORUMS],
    pub stations: [Station; STATIONS],
    pub arbiters: [Arbiter; STATIONS],
    pub up: Lanes,
    pub down: Lanes,
}

// Whether an arbiter of at most twelve stations is in range.
pub fn arbiter_in_range(a: &Arbiter, n: usize, stock: Units) -> bool
    ensures { result ≡ (leb n most_stations && arbiter_in_rule n stock (arbiter_of n a.now)) }
{
    n <= STATIONS && Bounds { stations: n, stock }.arbiter_in(a)
}

// Whether the record is in range.
#[tactic(auto, using(crate::proofs::Ranging::few_stations, crate::proofs::Ranging::record_kept, crate::proofs::Ranging::record_broken, std::proofs::lemmas::Grind::common_steps))]
pub fn in_range(r: &Record) -> bool
    ensures { result ≡ in_range (view r.now) }
{
    let Some(table) = limits::table_kept(r) else {
        return false;
    };
    let n = r.n as usize;
    let b = Bounds {
        stations: n,
        stock: r.stock,
    };
    b.stations_in(&r.stations[..n], table)
        && b.arbiters_in(&r.arbiters[..n])
        && Direction::Up(r.stock).rows_in(b, &r.up.rows[..n])
        && Direction::Down.rows_in(b, &r.down.rows[..n])
}
