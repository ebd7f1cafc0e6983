// The scratch that a caller lends.
ghost use Rattle.std.specs.Prelude.{◌≡◌};
ghost use Rattle.quorum.specs.Scratch.{cleaned};

use crate::SCRATCH_BYTES;

// Zeros in its first bytes; a shorter scratch stays as it is.
pub(crate) fn clean(scratch: &mut [u8])
    ensures { scratch.new ≡ cleaned scratch.old }
{
    if SCRATCH_BYTES <= scratch.len() {
        scratch[..SCRATCH_BYTES].fill(0);
    }
}
