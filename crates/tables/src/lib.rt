// Ready-made tables, which need no search: each is a k-arbiter of RR-2523.
#![tactic(auto)]

ghost use Rattle.std.specs.Prelude.{◌≡◌, length};
ghost use Rattle.tables.specs.Made.{answer, written, said};
ghost use Rattle.tables.specs.Singleton.{singleton_table, singleton_refusal};
ghost use Rattle.tables.specs.Uniform.{uniform_table, uniform_refusal};
ghost use Rattle.tables.specs.Cube.{cube_table, cube_refusal};

mod cubes;
mod room;
mod singletons;
mod uniforms;

use cubes::Cube;
use refusals::Refusal;
use uniforms::Sets;

// Each maker answers the number of quorums written, and leaves the buffer as it was where it refuses.

// One quorum of one of n stations.
#[tactic(auto, unfolding(crate::specs::Made::answer, crate::specs::Made::written), using(refusals::proofs::Outcomes::some_number))]
pub fn singleton(n: usize, station: usize, out: &mut [u16]) -> Result<usize, Refusal>
    ensures answered { said result ≡ answer (singleton_refusal n station (length out.old)) (singleton_table station) }
    ensures written { out.new ≡ written (singleton_refusal n station (length out.old)) (singleton_table station) out.old }
{
    singletons::fits(n, station, out.len())?;
    out[0] = stations::only(station);
    Ok(1)
}

// All sets of floor(k × n / (k + 1)) + 1 of n stations, by ascending number.
#[tactic(auto, unfolding(crate::specs::Made::answer, crate::specs::Made::written), using(refusals::proofs::Outcomes::some_number))]
pub fn uniform(n: usize, k: usize, out: &mut [u16]) -> Result<usize, Refusal>
    ensures answered { said result ≡ answer (uniform_refusal n k (length out.old)) (uniform_table n k) }
    ensures written { out.new ≡ written (uniform_refusal n k (length out.old)) (uniform_table n k) out.old }
{
    let sets = Sets::fitting(n, k, out.len())?;
    Ok(sets.write(0, out))
}

// For each of a^(k + 1) stations the quorum of those that agree with it in at least one coordinate.
#[tactic(auto, unfolding(crate::specs::Made::answer, crate::specs::Made::written), using(refusals::proofs::Outcomes::some_number))]
pub fn cube(a: usize, k: usize, out: &mut [u16]) -> Result<usize, Refusal>
    ensures answered { said result ≡ answer (cube_refusal a k (length out.old)) (cube_table a k) }
    ensures written { out.new ≡ written (cube_refusal a k (length out.old)) (cube_table a k) out.old }
{
    let cube = Cube::fitting(a, k, out.len())?;
    cube.write(out);
    Ok(cube.stations)
}
