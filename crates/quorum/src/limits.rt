// The limits 1 to 4 of a table.
ghost use Rattle.std.specs.Prelude.{◌≡◌, ◌≤◌};
ghost use Rattle.lists.specs.Search.{any};
ghost use Rattle.refusals.specs.Numbers.{refusal_of};
ghost use Rattle.quorum.specs.Limits.{most_stations, up_to, out_of_place, broken_limit};

use crate::{MOST_QUORUMS, MOST_STATIONS, MOST_UNITS};
use refusals::Refusal;

// Whether a quorum is empty or names a station from n on.
pub(crate) fn is_out_of_place(n: usize, quorum: u16) -> bool
    requires { n ≤ most_stations }
    ensures { result ≡ out_of_place n quorum }
{
    quorum == 0 || stations::everyone(n) < quorum
}

// Whether one of the quorums is.
pub(crate) fn has_bad_quorum(n: usize, quorums: &[u16]) -> bool
    requires { n ≤ most_stations }
    ensures { result ≡ any (out_of_place n) quorums.now }
{
    // no `any`: the program that `program-has` of `claim` is of has no function of the library
    for quorum in quorums {
        if is_out_of_place(n, *quorum) {
            return true;
        }
    }
    false
}

// Whether x lies in 1..most.
pub fn up_to(most: usize, x: usize) -> bool
    ensures { result ≡ up_to most x }
{
    1 <= x && x <= most
}

// Whether a table keeps the limits 1 to 4; the first that it breaks refuses it.
#[tactic(auto, unfolding(crate::specs::Limits::broken_limit))]
pub fn kept(n: usize, k: usize, quorums: &[u16]) -> Result<(), Refusal>
    ensures { refusal_of result ≡ broken_limit n k quorums.now }
{
    if !up_to(MOST_STATIONS, n) {
        return Err(Refusal::BadStations);
    }
    if !up_to(MOST_UNITS, k) {
        return Err(Refusal::BadStock);
    }
    if !up_to(MOST_QUORUMS, quorums.len()) {
        return Err(Refusal::BadLength);
    }
    if has_bad_quorum(n, quorums) {
        return Err(Refusal::BadQuorum);
    }
    Ok(())
}
