// Even tables.
ghost use Rattle.std.specs.Prelude.{◌≡◌};
ghost use Rattle.quorum.specs.Even.{belongs, equal_shares, equal_sizes, is_even};

use crate::table::Table;

impl Table<'_> {
    // The number of quorums that station i belongs to.
    fn quorums_of(&self, i: usize) -> usize
        ensures { result ≡ belongs self.now.quorums.now i }
    {
        self.quorums
            .iter()
            .filter(|quorum| stations::has(**quorum, i))
            .count()
    }

    // Whether all stations belong to equally many quorums.
    fn has_equal_shares(&self) -> bool
        ensures { result ≡ equal_shares self.now.stations self.now.quorums.now }
    {
        let first = self.quorums_of(0);
        for i in 1..self.stations {
            if self.quorums_of(i) != first {
                return false; // another share
            }
        }
        true
    }

    // Whether all quorums have equal size.
    fn has_equal_sizes(&self) -> bool
        ensures { result ≡ equal_sizes self.now.quorums.now }
    {
        let first = stations::count(self.quorums[0]);
        self.quorums
            .iter()
            .all(|quorum| stations::count(*quorum) == first)
    }

    // Whether a table is even in both senses. Sizes come first: they take one look at each quorum, and shares one for each station.
    pub(crate) fn is_even(&self) -> bool
        ensures { result ≡ is_even self.now.stations self.now.quorums.now }
    {
        self.has_equal_sizes() && self.has_equal_shares()
    }
}
