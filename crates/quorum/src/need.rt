// How many quorums it takes to leave no station of a set in common: one byte of scratch for each set.
ghost use Rattle.std.specs.Prelude.{◌≡◌, ℕ, ◌+◌, ◌≤◌, ◌<◌, length, get_or};
ghost use Rattle.std.specs.Int.Bits.{bit_and};
ghost use Rattle.stations.specs.Sets.{everyone};
ghost use Rattle.quorum.specs.Inner.Need.{Needs, no_need, least_byte, one_more, one_less, size_of};
ghost use Rattle.quorum.specs.Scratch.{scratch_bytes};

use crate::table::Table;
use crate::{MOST_QUORUMS, SCRATCH_BYTES};

// The byte of each set of stations.
pub(crate) type Bytes = [u8; SCRATCH_BYTES];

// The byte for a set that no quorums empty. A byte and no Option: it stands in the scratch, fixed memory that C lends as bytes.
const NO_NEED: u8 = 255;

// One more than the least byte among the sets that a quorum leaves of `set`. None is below `low`, so that one that is as low ends the search.
fn through_one(set: u16, low: u8, quorums: &[u16], bytes: &Bytes) -> u8
    requires set_in_bounds { set < scratch_bytes }
    requires by_index { (p : ℕ) → p < length quorums.now → low ≤ get_or bytes.now (bit_and set (get_or quorums.now p 0)) 0 }
    ensures { result ≡ one_more (least_byte bytes.now set no_need quorums.now) }
{
    if low == NO_NEED {
        return NO_NEED;
    }
    let mut least = NO_NEED;
    for quorum in quorums {
        let left = stations::common(set, *quorum) as usize;
        let byte = bytes[left];
        if byte < least {
            if byte == low {
                return byte + 1;
            }
            least = byte;
        }
    }
    if least == NO_NEED {
        return NO_NEED;
    }
    least + 1
}

// The least that a quorum may leave of a set, if the set without its highest station has the byte v.
fn lowest_left(v: u8) -> u8
    ensures { result ≡ one_less v }
{
    if v == NO_NEED {
        return NO_NEED;
    }
    if v == 0 {
        return 0;
    }
    v - 1
}

impl Table<'_> {
    // Fills the byte of every set whose highest station is i. Quorums that leave no station of it in common cannot all have i; one that has not
    // may as well come first, and what it leaves is a set of lower stations, whose byte is known. It leaves no less than it leaves of the set
    // without i, so no byte is lower than that set's byte less one.
    fn fill_highest(&self, i: usize, found: &mut [u16; MOST_QUORUMS], bytes: &mut Bytes)
        requires station { i < self.now.stations }
        requires below { Needs i self.now.quorums.now bytes.old }
        ensures { Needs (i + 1) self.now.quorums.now bytes.new }
    {
        let found = self.without(i, found);
        let first = stations::only(i);
        for set in first..first + first {
            let below = bytes[(set - first) as usize];
            bytes[set as usize] = through_one(set, lowest_left(below), found, bytes);
        }
    }

    // Fills the byte of every set of its stations.
    pub(crate) fn fill(&self, bytes: &mut Bytes)
        ensures { Needs self.now.stations self.now.quorums.now bytes.new }
    {
        let mut found = [0u16; MOST_QUORUMS]; // one list for all stations
        bytes[0] = 0;
        for i in 0..self.stations {
            self.fill_highest(i, &mut found, bytes);
        }
    }

    // Its width, once the bytes are filled: what all stations need, and 0, the width where there is none, if nothing empties them.
    pub(crate) fn width(&self, bytes: &Bytes) -> usize
        ensures { result ≡ size_of (get_or bytes.now (everyone self.now.stations) 0) }
    {
        match bytes[stations::everyone(self.stations) as usize] {
            NO_NEED => 0,
            byte => byte as usize,
        }
    }
}
