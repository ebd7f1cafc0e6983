// The check of a table and the next member of a quorum, as C has their answers.
ghost use Rattle.std.specs.Prelude.{◌≡◌};
ghost use Rattle.quorum.specs.Answer.{said};
ghost use Rattle.stations.specs.Sets.{said as next_said};
ghost use Rattle.pafluzeno.specs.Checks.{checked_says, next_says};

use quorum::{Accepted, MOST_STATIONS, Rejected};
use refusals::Refusal;
use stations::PLACES;

// What the check answers, in numbers, and the family in the first `size` places of an array: the C interface.
#[repr(C)]
#[derive(Clone, Copy)]
pub struct Checked {
    pub refusal: u8,
    pub width: usize,
    pub even: u8,
    pub size: usize,
    pub family: [u8; MOST_STATIONS],
}

// A member of a set, and how many members lie above it; 16 stands for none: the C interface.
#[repr(C)]
#[derive(Clone, Copy)]
pub struct NextMember {
    pub member: usize,
    pub above: usize,
}

// On an accepted table, but for its width and whether it is even.
const ACCEPTED: Checked = Checked {
    refusal: 0,
    width: 0,
    even: 0,
    size: 0,
    family: [0u8; MOST_STATIONS],
};

impl From<Result<Accepted, Rejected>> for Checked {
    ghost from_gives = { λ answer checked. checked_says checked ≡ said answer };

    fn from(answer: Result<Accepted, Rejected>) -> Checked {
        match answer {
            Ok(Accepted { width, even }) => Checked {
                width,
                even: even as u8,
                ..ACCEPTED
            },
            Err(Rejected::Refused(refusal)) => Checked {
                refusal: refusal.number(),
                ..ACCEPTED
            },
            Err(
                Rejected::NoCommonMember {
                    width,
                    even,
                    family,
                },
            ) => Checked {
                refusal: Refusal::NoCommonMember.number(),
                width,
                even: even as u8,
                size: width,
                family,
            },
            Err(Rejected::Nested { width }) => Checked {
                refusal: Refusal::Nested.number(),
                width,
                ..ACCEPTED
            },
        }
    }
}

impl From<Option<stations::NextMember>> for NextMember {
    ghost from_gives = { λ next numbers. next_says numbers ≡ next_said next };

    fn from(next: Option<stations::NextMember>) -> NextMember {
        match next {
            Some(next) => NextMember {
                member: next.member,
                above: next.above,
            },
            None => NextMember {
                member: PLACES,
                above: 0,
            },
        }
    }
}
