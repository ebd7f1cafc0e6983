// Nested tables.
ghost use Rattle.std.specs.Prelude.{◌≡◌};
ghost use Rattle.lists.specs.Search.{any};
ghost use Rattle.quorum.specs.Nested.{comparable, nested};

use crate::table::Table;

// Whether one of two quorums contains or equals the other.
fn are_comparable(quorum: u16, other: u16) -> bool
    ensures { result ≡ comparable quorum other }
{
    stations::contains(quorum, other) || stations::contains(other, quorum)
}

// Whether a quorum contains or equals one of the others, or lies within it.
fn is_comparable(quorum: u16, others: &[u16]) -> bool
    ensures { result ≡ any (comparable quorum) others.now }
{
    others.iter().any(|other| are_comparable(quorum, *other))
}

impl Table<'_> {
    // Whether one entry contains or equals another entry.
    #[tactic(auto, unfolding(crate::specs::Nested::nested))]
    pub(crate) fn is_nested(&self) -> bool
        ensures { result ≡ nested self.now.quorums.now }
    {
        let mut rest = self.quorums;
        while let Some((quorum, later)) = rest.split_first() {
            if is_comparable(*quorum, later) {
                return true;
            }
            rest = later;
        }
        false
    }
}
