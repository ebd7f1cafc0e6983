// One pass over all sets of n stations.
ghost use Rattle.std.specs.Prelude.{◌≡◌, ◌≤◌};
ghost use Rattle.lists.specs.Counting.{each};
ghost use Rattle.quorum.specs.Limits.{most_stations};
ghost use Rattle.outages.specs.Answer.{sizes};
ghost use Rattle.outages.specs.Outages.{survivals};

use crate::{SIZES, working};

// How many sets of each size contain a whole quorum.
pub(crate) fn count_sets(n: usize, quorums: &[u16]) -> [u16; SIZES]
    requires { n ≤ most_stations }
    ensures { result ≡ each (survivals n quorums.now) sizes }
{
    let mut counts = [0u16; SIZES];
    let last = stations::everyone(n);
    for set in 0..=last {
        if working::works(quorums, set) {
            counts[stations::count(set)] += 1;
        }
    }
    counts
}
