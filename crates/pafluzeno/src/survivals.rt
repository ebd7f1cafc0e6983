// The outages that a table survives.
ghost use Rattle.std.specs.Prelude.{◌≡◌, length};
ghost use Rattle.outages.specs.Answer.{answer, laid};
ghost use Rattle.quorum.specs.Scratch.{cleaned};
ghost use Rattle.pafluzeno.specs.Counted.{said};

use outages::SIZES;

// The refusal, and the counts: the first `size` places of the array, the one of number u for the sets of u stations. All other places are 0.
// A number and an array with its length: the C interface.
#[repr(C)]
#[derive(Clone, Copy)]
pub struct Counted {
    pub refusal: u8,
    pub size: usize,
    pub counts: [u16; SIZES],
}

// The sets of working stations that contain a whole quorum, counted by their size.
#[unsafe(no_mangle)]
pub extern "C" fn pafluzeno_outages(
    n: usize,
    k: usize,
    quorums: &[u16],
    scratch: &mut [u8],
) -> Counted
    ensures answered { said result ≡ laid (answer n k quorums.now (length scratch.old)) }
    ensures cleaned { scratch.new ≡ cleaned scratch.old }
{
    match outages::count(n, k, quorums, scratch) {
        Ok(counts) => Counted {
            refusal: 0,
            size: n + 1,
            counts,
        },
        Err(refusal) => Counted {
            refusal: refusal.number(),
            size: 0,
            counts: [0u16; SIZES],
        },
    }
}
