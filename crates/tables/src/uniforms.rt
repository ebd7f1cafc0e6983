// The table of all sets of one size.
ghost use Rattle.std.specs.Prelude.{◌≤◌};
ghost use Rattle.quorum.specs.Limits.{most_stations};

use refusals::Refusal;

// All sets of one size of so many stations.
#[derive(Clone, Copy)]
pub(crate) struct Sets {
    stations: usize,
    size: usize,
    ghost few: { stations ≤ most_stations },
}

impl Sets {
    ghost use Rattle.std.specs.Prelude.{◌≡◌, ◌+◌, ◌^◌, length, IfOk};
    ghost use Rattle.refusals.specs.Numbers.{refusal_of};
    ghost use Rattle.stations.specs.Sets.{places};
    ghost use Rattle.stations.specs.Sizes.{choose};
    ghost use Rattle.tables.specs.Inner.Stored.{stored};
    ghost use Rattle.tables.specs.Uniform.{uniform_size, uniform_refusal};

    // Those of the uniform table of n stations and k units, which fits a buffer of so many entries.
    #[tactic(auto, unfolding(crate::specs::Made::no_room, crate::specs::Uniform::uniform_refusal, crate::specs::Uniform::uniform_size), using(crate::proofs::UniformArbiter::uniform_length))]
    pub(crate) fn fitting(n: usize, k: usize, room: usize) -> Result<Sets, Refusal>
        ensures refused { refusal_of result ≡ uniform_refusal n k room }
        ensures made { IfOk result (λ sets. (sets.stations ≡ n) × (sets.size ≡ uniform_size n k)) }
    {
        if !quorum::limits::up_to(quorum::MOST_STATIONS, n) {
            return Err(Refusal::BadStations);
        }
        if !quorum::limits::up_to(quorum::MOST_UNITS, k) {
            return Err(Refusal::BadStock);
        }
        let size = k * n / (k + 1) + 1;
        let sets = Sets { stations: n, size };
        crate::room::fits(sets.count(), room)?;
        Ok(sets)
    }

    // How many they are.
    fn count(self) -> usize
        requires { self.size ≤ self.stations }
        ensures { result ≡ choose self.stations self.size }
    {
        let mut sets: usize = 1;
        for i in 0..self.size {
            sets = sets * (self.stations - i) / (i + 1);
        }
        sets
    }

    // Writes them, each with the higher stations `above`, and answers how many they are. The sets without the last station come first, as the
    // smaller numbers.
    pub(crate) fn write(self, above: u16, out: &mut [u16]) -> usize
        requires { (above + 2 ^ self.stations ≤ 2 ^ places) × (choose self.stations self.size ≤ length out.old) }
        ensures counted { result ≡ choose self.stations self.size }
        ensures written { out.new ≡ stored out.old above self.stations self.size }
    {
        if self.size == 0 {
            out[0] = above;
            return 1;
        }
        if self.stations < self.size {
            return 0;
        }
        if self.stations == self.size {
            out[0] = above + stations::everyone(self.stations);
            return 1;
        }
        let last = self.stations - 1;
        let without = Sets {
            stations: last,
            size: self.size,
        };
        let with = Sets {
            stations: last,
            size: self.size - 1,
        };
        let first = without.write(above, out);
        first + with.write(above + stations::only(last), &mut out[first..])
    }
}
