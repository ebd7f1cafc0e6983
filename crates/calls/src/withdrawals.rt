// A station that collects gives up its request.
ghost use Rattle.std.specs.Prelude.{[], ◌∷◌, ◌||◌, ◌≡◌, ◌≤◌, ◌<◌, ◌^◌, OnOk, OnErr};
ghost use Rattle.lists.specs.Broken.{◌when◌, first_broken};
ghost use Rattle.lists.specs.Search.{some_below};
ghost use Rattle.plain.specs.Lanes.{up_places, no_place, passes, sent};
ghost use Rattle.plain.specs.Release.{release_passes};
ghost use Rattle.plain.specs.Withdraw.{below, withdrawing, withdraw};
ghost use Rattle.plain.specs.declared.Message.TheVariants.{Withdraw};
ghost use Rattle.quorum.specs.Limits.{most_stations};
ghost use Rattle.records.specs.View.{view, row_of};
ghost use Rattle.refusals.specs.Numbers.{refusal_of};
ghost use Rattle.calls.specs.Answers.{answered_by};

use crate::{Returned, lanes, releases, taking};
use plain::{Message, Phase};
use records::{Record, Row, UP_PLACES};
use refusals::Refusal;

// RELEASE goes up to the members of the set below the one now approached, WITHDRAW to that one.
fn withdraw_row(w: &mut Row, n: usize, set: u16, member: usize) -> Result<(), Refusal>
    requires { (n ≤ most_stations) × (set < 2 ^ n) × (member < n) }
    ensures refusal { refusal_of result ≡ first_broken (no_place when (some_below (release_passes (below set member) (row_of n w.old)) n || passes up_places (sent (row_of n w.old member) Withdraw)) ∷ []) }
    ensures row { OnOk result (row_of n w.new ≡ withdrawing set member (row_of n w.old)) }
{
    let granted = stations::common(set, stations::everyone(member));
    match releases::release_row(w, n, granted) {
        Ok(()) => lanes::put_to(w, member, Message::Withdraw, UP_PLACES),
        Err(refusal) => Err(refusal),
    }
}

// The station is withdrawing.
pub(crate) fn give_up(r: &mut Record, s: usize) -> Result<Returned, Refusal>
    ensures answer { answered_by result (view r.new) ≡ withdraw (view r.old) s }
    ensures refused { OnErr result (r.new ≡ r.old) }
{
    match taking::tested(r, s) {
        Ok(()) => {}
        Err(refusal) => return Err(refusal),
    }
    let Phase::Collecting { quorum, member, .. } = r.stations[s].phase else {
        return Err(Refusal::NotCollecting);
    };
    let mut row = r.up.rows[s];
    match withdraw_row(
        &mut row,
        r.n as usize,
        r.table[quorum as usize],
        member as usize,
    ) {
        Ok(()) => {}
        Err(refusal) => return Err(refusal),
    }
    releases::send_row(r, s, row, Phase::Withdrawing);
    Ok(crate::nothing())
}
