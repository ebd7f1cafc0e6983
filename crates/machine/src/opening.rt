// Records with which a machine starts.
ghost use Rattle.std.specs.Prelude.{[], ◌≡◌, ℕ, ◌≤◌, length};
ghost use Rattle.lists.specs.Cut.{cut};
ghost use Rattle.plain.specs.State.{fresh as fresh_of};
ghost use Rattle.quorum.specs.Limits.{most_stations, most_quorums};
ghost use Rattle.records.specs.View.{lanes_of, view};
ghost use Rattle.machine.specs.Opening.{empty_record};

use plain::{Entry, Message, Phase};
use records::{Arbiter, LINE_PLACES, Lane, Lanes, Record, Row, STATIONS, Slot, Station, UP_PLACES};
use units::Units;

// The quorums in an array, with zeros after them.
fn copied(quorums: &[u16]) -> [u16; quorum::MOST_QUORUMS]
    requires { length quorums.now ≤ most_quorums }
    ensures { cut 0 (length quorums.now) result ≡ quorums.now }
{
    let mut table = [0u16; quorum::MOST_QUORUMS];
    // a `for`: `copy_from_slice` needs C's memmove in the static library
    for (p, quorum) in quorums.iter().enumerate() {
        table[p] = *quorum;
    }
    table
}

// Lanes with nothing in them.
pub(crate) fn empty_lanes() -> Lanes
    ensures { (n : ℕ) → lanes_of n result ≡ (λ s j. []) }
{
    let slot = Slot {
        message: Message::Release,
    };
    let lane = Lane {
        len: 0,
        slots: [slot; UP_PLACES],
    };
    let row = Row {
        lanes: [lane; STATIONS],
    };
    Lanes {
        rows: [row; STATIONS],
    }
}

// All is idle and empty.
pub(crate) fn blank(n: u8, stock: Units, quorums: u8, table: [u16; quorum::MOST_QUORUMS]) -> Record
    ensures { view result ≡ fresh_of n stock (cut 0 quorums table) }
{
    let station = Station { phase: Phase::Idle };
    let none = units::no_units();
    let entry = Entry {
        station: 0,
        units: none,
    };
    let arbiter = Arbiter {
        granted: [none; STATIONS],
        len: 0,
        line: [entry; LINE_PLACES],
    };
    let lanes = empty_lanes();
    Record {
        n,
        stock,
        quorums,
        table,
        stations: [station; STATIONS],
        arbiters: [arbiter; STATIONS],
        up: lanes,
        down: lanes,
    }
}

// The empty record.
pub(crate) fn empty() -> Record
    ensures { view result ≡ empty_record }
{
    blank(0, units::no_units(), 0, [0; quorum::MOST_QUORUMS])
}

// A fresh record of the table.
pub(crate) fn fresh(n: usize, stock: Units, quorums: &[u16]) -> Record
    requires { (n ≤ most_stations) × (length quorums.now ≤ most_quorums) }
    ensures { view result ≡ fresh_of n stock quorums.now }
{
    let table = copied(quorums);
    blank(n as u8, stock, quorums.len() as u8, table)
}
