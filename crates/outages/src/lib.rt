// Outages that a table survives: how many sets of working stations of each size contain a whole quorum.
#![tactic(auto)]

ghost use Rattle.std.specs.Prelude.{◌≡◌, ◌≤◌, length, OnOk};
ghost use Rattle.quorum.specs.Limits.{most_stations};
ghost use Rattle.quorum.specs.Scratch.{cleaned};
ghost use Rattle.outages.specs.Answer.{answer, laid, said};

mod counting;
mod working;

use refusals::Refusal;

// A set of stations has one of so many sizes, 0 to 12.
// The counts stand in an array, and not in a Vec: there is no heap.
pub const SIZES: usize = quorum::MOST_STATIONS + 1;

// For each u from 0 to n the number of sets of u working stations that contain a whole quorum, and 0 in the places behind; on the check's own
// refusals no counts. The scratch is lent to the check, which leaves it as it says.
pub fn count(
    n: usize,
    k: usize,
    quorums: &[u16],
    scratch: &mut [u8],
) -> Result<[u16; SIZES], Refusal>
    ensures answered { said n result ≡ laid (answer n k quorums.now (length scratch.old)) }
    ensures few { OnOk result (n ≤ most_stations) }
    ensures cleaned { scratch.new ≡ cleaned scratch.old }
{
    quorum::check(n, k, quorums, scratch)?;
    Ok(counting::count_sets(n, quorums))
}
