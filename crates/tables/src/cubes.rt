// The table of a cube: stations that share a coordinate.
ghost use Rattle.std.specs.Prelude.{◌≡◌, ◌<◌, ◌≤◌};
ghost use Rattle.quorum.specs.Limits.{most_stations, most_units};
ghost use Rattle.tables.specs.Cube.{cube_stations};

use refusals::Refusal;

// A cube of a stations along each of k + 1 coordinates, of which at most 12 are made.
#[derive(Clone, Copy)]
pub(crate) struct Cube {
    a: usize,
    k: usize,
    pub(crate) stations: usize,
    ghost some: { 0 < a },
    ghost in_stock: { k ≤ most_units },
    ghost few: { stations ≤ most_stations },
    ghost power: { stations ≡ cube_stations a k },
}

impl Cube {
    ghost use Rattle.std.specs.Prelude.{◌+◌, length, IfOk};
    ghost use Rattle.std.proofs.lemmas.List.Edits.{sets};
    ghost use Rattle.refusals.specs.Numbers.{refusal_of};
    ghost use Rattle.tables.specs.Cube.{agree, cube_quorum, cube_table, cube_refusal};

    // The cube of a and k, whose table fits a buffer of so many entries.
    #[tactic(auto, unfolding(crate::specs::Made::no_room, crate::specs::Cube::cube_refusal), using(crate::proofs::CubeArbiter::cube_length, crate::proofs::CubeStations::stations_tested))]
    pub(crate) fn fitting(a: usize, k: usize, room: usize) -> Result<Cube, Refusal>
        ensures refused { refusal_of result ≡ cube_refusal a k room }
        ensures made { IfOk result (λ cube. (cube.a ≡ a) × (cube.k ≡ k)) }
    {
        if !quorum::limits::up_to(quorum::MOST_UNITS, k) {
            return Err(Refusal::BadStock);
        }
        let stations = a.checked_pow(k as u32 + 1).unwrap_or(0); // no cube either where the power does not fit
        if !quorum::limits::up_to(quorum::MOST_STATIONS, stations) {
            return Err(Refusal::NoCube);
        }
        crate::room::fits(stations, room)?;
        Ok(Cube { a, k, stations })
    }

    // Whether the stations p and q agree in at least one coordinate.
    fn agree(self, p: usize, q: usize) -> bool
        ensures { result ≡ agree self.a (self.k + 1) p q }
    {
        let mut left = p;
        let mut right = q;
        for _ in 0..=self.k {
            if left % self.a == right % self.a {
                return true;
            }
            left /= self.a;
            right /= self.a;
        }
        false
    }

    // The quorum of station p.
    fn quorum_of(self, p: usize) -> u16
        ensures { result ≡ cube_quorum self.a self.k p }
    {
        let mut quorum: u16 = 0;
        for q in 0..self.stations {
            if self.agree(p, q) {
                quorum += stations::only(q);
            }
        }
        quorum
    }

    // Writes the quorum of every station, in the order of the stations.
    pub(crate) fn write(self, out: &mut [u16])
        requires { self.stations ≤ length out.old }
        ensures { out.new ≡ sets out.old 0 (cube_table self.a self.k) }
    {
        for (p, place) in out[..self.stations].iter_mut().enumerate() {
            *place = self.quorum_of(p);
        }
    }
}
