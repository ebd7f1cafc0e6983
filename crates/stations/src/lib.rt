// Sets of stations as 16-bit masks: station i is a member exactly when bit i, worth 2^i, is one.
#![tactic(auto)]

ghost use Rattle.std.specs.Prelude.{◌≡◌, ◌<◌, min, IfSome};
ghost use Rattle.std.specs.Int.Bits.{bit_and};
ghost use Rattle.stations.specs.Member.{member};
ghost use Rattle.stations.specs.Sets.{everyone as all_of, only as only_of, contains as contains_all, size, places, next_from, said};

// A mask has places for the stations 0 to 15.
pub const PLACES: usize = 16;

// A member of a set, and how many members lie above it.
#[derive(Clone, Copy)]
pub struct NextMember {
    pub member: usize,
    pub above: usize,
}

// Whether station i is a member of q. No station from 16 on is.
#[tactic(auto, using(crate::proofs::Members::member_beyond), unfolding(crate::specs::Member::member))]
pub fn has(q: u16, i: usize) -> bool
    ensures { result ≡ member q i }
{
    if PLACES <= i {
        return false;
    }
    (q >> i) % 2 == 1
}

// The set of station i alone. A mask has no place for a station from 16 on.
#[tactic(auto, using(crate::proofs::Members::shifted_one, crate::proofs::Built::only_below, crate::proofs::Built::only_beyond))]
pub fn only(i: usize) -> u16
    ensures { result ≡ only_of i }
{
    if PLACES <= i {
        return 0;
    }
    1u16 << i
}

// The set of the stations 0 to n - 1. A mask has no place for a station from 16 on.
#[tactic(auto, using(crate::proofs::Built::only_below, crate::proofs::Built::only_some, crate::proofs::Members::everyone_places))]
pub fn everyone(n: usize) -> u16
    ensures { result ≡ all_of (min n places) }
{
    if PLACES <= n {
        return 65535;
    }
    only(n) - 1
}

// The stations that are in both sets.
pub fn common(a: u16, b: u16) -> u16
    ensures { result ≡ bit_and a b }
{
    a & b
}

// Whether a contains or equals b.
#[tactic(auto, unfolding(crate::specs::Sets::contains))]
pub fn contains(a: u16, b: u16) -> bool
    ensures { result ≡ contains_all a b }
{
    a & b == b
}

// The number of members.
#[tactic(auto, using(crate::proofs::Ones::ones_count))]
pub fn count(q: u16) -> usize
    ensures { result ≡ size q }
{
    u16::count_ones(q) as usize
}

// The lowest member from station `from` on, if there is one, and how many members lie above it.
pub fn lowest_from(q: u16, from: usize) -> Option<NextMember>
    ensures next { said result ≡ next_from q from }
    ensures found { IfSome result (λ next. next.member < places) }
{
    if PLACES <= from {
        return None;
    }
    let rest = q >> from; // the members from there on, each by its distance from there
    if rest == 0 {
        return None;
    }
    Some(NextMember {
        member: from + u16::trailing_zeros(rest) as usize,
        above: count(rest) - 1, // but for the member itself
    })
}
