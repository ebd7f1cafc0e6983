// The refusals, each with document 01's number. What is not refused has the number 0.
#![tactic(auto)]

ghost use Rattle.std.specs.Prelude.{◌≡◌};
ghost use Rattle.refusals.specs.Numbers.{number_of, refusal_of};

use std::error::Error;
use std::fmt;

#[derive(Clone, Copy, Debug, PartialEq, Eq)]
pub enum Refusal {
    // n outside 1..12
    BadStations = 1,
    // k outside 1..200
    BadStock = 2,
    // quorums outside 1..64
    BadLength = 3,
    // a quorum empty or naming a station from n on
    BadQuorum = 4,
    // scratch below 4,096 bytes
    ShortScratch = 5,
    // some k + 1 quorums, repeats allowed, have no common member
    NoCommonMember = 6,
    // one entry of the table contains or equals another
    Nested = 7,
    // a station or arbiter from n on
    NoSuchStation = 8,
    // request: no such quorum
    NoSuchQuorum = 9,
    // request: units outside 1..k
    BadUnits = 10,
    // request: the station is not idle
    NotIdle = 11,
    // release: the station does not hold
    NotHolding = 12,
    // up, down: the lane is empty
    EmptyLane = 13,
    // a lane or line would pass its limit
    NoPlace = 14,
    // a journal text, a record or a call not of the form, or a number that is no message
    BadForm = 15,
    // an output buffer too short
    ShortBuffer = 16,
    // a cube with a = 0 or more than 12 stations
    NoCube = 17,
    // a ready-made table above 64 quorums
    TooManyQuorums = 18,
    // a record out of range
    OutOfRange = 19,
    // withdraw: the station does not collect
    NotCollecting = 20,
}

impl Refusal {
    // Its number, 1 to 20.
    pub fn number(self) -> u8
        ensures { result ≡ number_of self }
    {
        self as u8
    }
}

impl fmt::Display for Refusal {
    fn fmt<W: fmt::Write>(&self, f: &mut fmt::Formatter<W>) -> fmt::Result {
        write!(f, "{}", self.number())
    }
}

impl Error for Refusal {}

// An outcome's number: 0 where it is no refusal.
pub fn number_in<T: Copy>(outcome: Result<T, Refusal>) -> u8
    ensures { result ≡ refusal_of outcome }
{
    match outcome {
        Ok(_) => 0,
        Err(refusal) => refusal.number(),
    }
}
