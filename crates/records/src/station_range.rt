// Whether stations are in range: the numbers that they work with.
ghost use Rattle.std.specs.Prelude.{◌≡◌, ◌&&◌, ltb, length};
ghost use Rattle.lists.specs.Search.{all};
ghost use Rattle.units.specs.Units.{request_in};
ghost use Rattle.records.specs.View.{phase_of};

use crate::Station;
use crate::bounds::Bounds;
use plain::Phase;
use units::Units;

impl Bounds {
    ghost use Rattle.plain.specs.InRange.{phase_in};

    // Whether a quorum is of this table, and units of this stock.
    fn wish_in(self, quorum: u8, units: Units, table: &[u16]) -> bool
        ensures { result ≡ (ltb quorum (length table.now) && request_in self.stock units) }
    {
        (quorum as usize) < table.len() && units::request_in(self.stock, units)
    }

    #[tactic(auto, unfolding(plain::specs::InRange::phase_in))]
    fn phase_in(self, phase: Phase, table: &[u16]) -> bool
        ensures { result ≡ phase_in self.stations self.stock table.now phase }
    {
        match phase {
            Phase::Idle | Phase::Withdrawing => true,
            Phase::Collecting {
                quorum,
                units,
                member,
            } => (member as usize) < self.stations && self.wish_in(quorum, units, table),
            Phase::Holding { quorum, units } => self.wish_in(quorum, units, table),
        }
    }

    pub fn stations_in(self, stations: &[Station], table: &[u16]) -> bool
        ensures { result ≡ all (λ s. phase_in self.stations self.stock table.now (phase_of s)) stations.now }
    {
        for station in stations {
            if !self.phase_in(station.phase, table) {
                return false;
            }
        }
        true
    }
}
