// The quorums that a station does not belong to.
ghost use Rattle.std.specs.Prelude.{◌≡◌};
ghost use Rattle.quorum.specs.Inner.Need.{without as without_of};

use crate::MOST_QUORUMS;
use crate::table::Table;

impl Table<'_> {
    // Puts them into a lent list, of fixed size since the check has no heap, and hands on the part that they fill.
    pub(crate) fn without<'f>(&self, i: usize, found: &'f mut [u16; MOST_QUORUMS]) -> &'f [u16]
        ensures { result.now ≡ without_of i self.now.quorums.now }
    {
        let mut len = 0;
        for quorum in self.quorums {
            if !stations::has(*quorum, i) {
                found[len] = *quorum;
                len += 1;
            }
        }
        &found[..len]
    }
}
