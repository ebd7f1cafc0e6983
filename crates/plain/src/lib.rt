// The plain machine: what messages, stations and lines are made of. The machine itself stands in the definitions.
#![tactic(auto)]

use units::Units;

// REQUEST, RELEASE and WITHDRAW go up from a station to an arbiter, GRANT and GONE come down.
#[derive(Clone, Copy, Debug, PartialEq, Eq)]
pub enum Message {
    Request(Units),
    Release,
    Grant,
    Withdraw,
    Gone,
}

// What a station does: nothing, collect permission for so many units from the members of a quorum, hold them, or wait for GONE, having
// withdrawn.
#[derive(Clone, Copy, Debug, PartialEq, Eq)]
pub enum Phase {
    Idle,
    Collecting {
        quorum: u8,
        units: Units,
        member: u8,
    },
    Holding {
        quorum: u8,
        units: Units,
    },
    Withdrawing,
}

// A place in an arbiter's line.
#[repr(C)]
#[derive(Clone, Copy, Debug, PartialEq, Eq)]
pub struct Entry {
    pub station: u8,
    pub units: Units,
}
