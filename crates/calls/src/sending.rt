// What goes down the lanes from an arbiter: GONE, and grants.
ghost use Rattle.std.specs.Prelude.{[], ◌∷◌, ◌≡◌, OnOk};
ghost use Rattle.lists.specs.Broken.{◌when◌, first_broken};
ghost use Rattle.lists.specs.Search.{some_below};
ghost use Rattle.plain.specs.Lanes.{down_places, no_place, passes};
ghost use Rattle.plain.specs.Up.{replying, granting};
ghost use Rattle.records.specs.View.{lanes_of};
ghost use Rattle.refusals.specs.Numbers.{refusal_of};
ghost use Rattle.calls.specs.Inner.Parts.{Sends, is_withdrawal as is_withdrawal_rule};

use crate::lanes;
use plain::{Entry, Message};
use records::{DOWN_PLACES, Lanes};
use refusals::Refusal;

fn is_withdrawal(m: Message) -> bool
    ensures { result ≡ is_withdrawal_rule m }
{
    matches!(m, Message::Withdraw)
}

// GONE from arbiter j to the sender s of a WITHDRAW, then a GRANT for each of the entries granted.
pub(crate) fn send(
    down: &mut Lanes,
    n: usize,
    s: usize,
    j: usize,
    m: Message,
    grants: &[Entry],
) -> Result<(), Refusal>
    requires { Sends n s j grants.now (lanes_of n down.old) }
    ensures refusal { refusal_of result ≡ first_broken (no_place when some_below (λ t. passes down_places (granting (replying m (lanes_of n down.old) s j) j grants.now t j)) n ∷ []) }
    ensures lanes { OnOk result (lanes_of n down.new ≡ granting (replying m (lanes_of n down.old) s j) j grants.now) }
{
    if is_withdrawal(m) {
        match lanes::put_between(down, s, j, Message::Gone, DOWN_PLACES) {
            Ok(()) => {}
            Err(refusal) => return Err(refusal),
        }
    }
    for entry in grants {
        let t = entry.station as usize;
        match lanes::put_between(down, t, j, Message::Grant, DOWN_PLACES) {
            Ok(()) => {}
            Err(refusal) => return Err(refusal),
        }
    }
    Ok(())
}
