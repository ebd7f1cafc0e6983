// The first family in dictionary order without a common member.
ghost use Rattle.std.specs.Prelude.{◌≡◌, get_or};
ghost use Rattle.lists.specs.Cut.{cut};
ghost use Rattle.stations.specs.Sets.{everyone};
ghost use Rattle.quorum.specs.FirstFamily.{first_family};
ghost use Rattle.quorum.specs.Inner.Need.{Needs, no_need};

use crate::MOST_STATIONS;
use crate::need::Bytes;
use crate::table::Table;

impl Table<'_> {
    // The lowest-numbered quorum that lowers what is still needed, again and again: a lower number
    // would have lowered it before, so the numbers ascend, and no other family comes first.
    pub(crate) fn first_family(&self, bytes: &Bytes) -> [u8; MOST_STATIONS]
        requires needs { Needs self.now.stations self.now.quorums.now bytes.now }
        requires some { get_or bytes.now (everyone self.now.stations) 0 ≡ no_need → ⊥ }
        ensures { cut 0 (get_or bytes.now (everyone self.now.stations) 0) result ≡ first_family self.now.stations self.now.quorums.now }
    {
        let mut family = [0u8; MOST_STATIONS];
        let mut size = 0;
        let mut rest = stations::everyone(self.stations);
        for (p, quorum) in self.quorums.iter().enumerate() {
            let left = stations::common(rest, *quorum);
            if bytes[left as usize] < bytes[rest as usize] {
                family[size] = p as u8;
                size += 1;
                rest = left;
            }
        }
        family
    }
}
