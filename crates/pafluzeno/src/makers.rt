// The makers of ready-made tables.
ghost use Rattle.std.specs.Prelude.{◌≡◌, length};
ghost use Rattle.tables.specs.Cube.{cube_table, cube_refusal};
ghost use Rattle.tables.specs.Made.{answer, written, said as outcome_says};
ghost use Rattle.tables.specs.Singleton.{singleton_table, singleton_refusal};
ghost use Rattle.tables.specs.Uniform.{uniform_table, uniform_refusal};
ghost use Rattle.pafluzeno.specs.Made.{said};

use refusals::Refusal;

// What the maker of a table answers: the refusal, and the number of quorums written, 0 on a refusal. Numbers: the C interface.
#[repr(C)]
#[derive(Clone, Copy)]
pub struct Made {
    pub refusal: u8,
    pub quorums: usize,
}

impl From<Result<usize, Refusal>> for Made {
    ghost from_gives = { λ outcome made. said made ≡ outcome_says outcome };

    fn from(outcome: Result<usize, Refusal>) -> Made {
        Made {
            refusal: refusals::number_in(outcome),
            quorums: outcome.unwrap_or(0),
        }
    }
}

// One quorum of one of n stations.
#[unsafe(no_mangle)]
pub extern "C" fn pafluzeno_singleton(n: usize, station: usize, out: &mut [u16]) -> Made
    ensures answered { said result ≡ answer (singleton_refusal n station (length out.old)) (singleton_table station) }
    ensures written { out.new ≡ written (singleton_refusal n station (length out.old)) (singleton_table station) out.old }
{
    Made::from(tables::singleton(n, station, out))
}

// All sets of floor(k × n / (k + 1)) + 1 of n stations, by ascending number.
#[unsafe(no_mangle)]
pub extern "C" fn pafluzeno_uniform(n: usize, k: usize, out: &mut [u16]) -> Made
    ensures answered { said result ≡ answer (uniform_refusal n k (length out.old)) (uniform_table n k) }
    ensures written { out.new ≡ written (uniform_refusal n k (length out.old)) (uniform_table n k) out.old }
{
    Made::from(tables::uniform(n, k, out))
}

// For each of a^(k + 1) stations the quorum of those that agree with it in at least one coordinate.
#[unsafe(no_mangle)]
pub extern "C" fn pafluzeno_cube(a: usize, k: usize, out: &mut [u16]) -> Made
    ensures answered { said result ≡ answer (cube_refusal a k (length out.old)) (cube_table a k) }
    ensures written { out.new ≡ written (cube_refusal a k (length out.old)) (cube_table a k) out.old }
{
    Made::from(tables::cube(a, k, out))
}
