// A fresh record of one station whose unused places hold what is out of range.
use crate::by_hand;
use plain::{Message, Phase};
use records::{Arbiter, Lanes, Record, Row, STATIONS, Station};

// An empty lane from station 0 to arbiter 0; all else is out of range.
fn lanes(message: Message) -> Lanes {
    let bad = by_hand::lane(9, message);
    let bad_row = Row {
        lanes: [bad; STATIONS],
    };
    let mut rows = [bad_row; STATIONS];
    rows[0].lanes[0] = by_hand::lane(0, message);
    Lanes { rows }
}

// Nothing is granted to station 0, and nobody waits.
fn arbiters() -> [Arbiter; STATIONS] {
    let mut bad = by_hand::waiting(200, 99, 0);
    let most = by_hand::units(255);
    bad.granted = [most; STATIONS];
    let mut first = by_hand::waiting(0, 99, 0);
    first.granted = [most; STATIONS];
    first.granted[0] = by_hand::units(0);
    let mut all = [bad; STATIONS];
    all[0] = first;
    all
}

// One station, one unit, one quorum; GRANT stands in the places up, and REQUEST of 0 in those down.
pub fn filled() -> Record {
    let mut table = [65535u16; quorum::MOST_QUORUMS];
    table[0] = 1;
    let bad = Station {
        phase: by_hand::holding(9, 0),
    };
    let mut stations = [bad; STATIONS];
    stations[0] = Station { phase: Phase::Idle };
    Record {
        n: 1,
        stock: by_hand::units(1),
        quorums: 1,
        table,
        stations,
        arbiters: arbiters(),
        up: lanes(Message::Grant),
        down: lanes(by_hand::request(0)),
    }
}
