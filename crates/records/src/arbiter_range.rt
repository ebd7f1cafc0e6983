// Whether arbiters are in range: the units granted and the line.
ghost use Rattle.std.specs.Prelude.{◌≡◌};
ghost use Rattle.lists.specs.Search.{all};
ghost use Rattle.units.specs.Units.{grant_in as grant_in_rule};
ghost use Rattle.records.specs.View.{arbiter_of};

use crate::bounds::Bounds;
use crate::{Arbiter, LINE_PLACES};
use plain::Entry;
use units::Units;

impl Bounds {
    ghost use Rattle.plain.specs.InRange.{entry_in, arbiter_in};

    fn grants_in(self, granted: &[Units]) -> bool
        ensures { result ≡ all (grant_in_rule self.stock) granted.now }
    {
        for units in granted {
            if !units::grant_in(self.stock, *units) {
                return false;
            }
        }
        true
    }

    #[tactic(auto, unfolding(plain::specs::InRange::entry_in))]
    fn entry_in(self, e: &Entry) -> bool
        ensures { result ≡ entry_in self.stations self.stock e.now }
    {
        (e.station as usize) < self.stations && units::request_in(self.stock, e.units)
    }

    fn line_in(self, line: &[Entry]) -> bool
        ensures { result ≡ all (entry_in self.stations self.stock) line.now }
    {
        for e in line {
            if !self.entry_in(e) {
                return false;
            }
        }
        true
    }

    #[tactic(auto, using(crate::proofs::Ranging::arbiter_long, crate::proofs::Ranging::arbiter_kept, lists::proofs::Slices::front_cut, std::proofs::lemmas::Grind::common_steps))]
    pub fn arbiter_in(self, a: &Arbiter) -> bool
        ensures { result ≡ arbiter_in self.stations self.stock (arbiter_of self.stations a.now) }
    {
        let len = a.len as usize;
        if LINE_PLACES < len {
            return false;
        }
        self.grants_in(&a.granted[..self.stations]) && self.line_in(&a.line[..len])
    }

    pub fn arbiters_in(self, arbiters: &[Arbiter]) -> bool
        ensures { result ≡ all (λ a. arbiter_in self.stations self.stock (arbiter_of self.stations a)) arbiters.now }
    {
        for a in arbiters {
            if !self.arbiter_in(a) {
                return false;
            }
        }
        true
    }
}
