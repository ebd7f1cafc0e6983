// A station gives back what it holds.
ghost use Rattle.std.specs.Prelude.{[], ◌∷◌, ◌≡◌, ◌≤◌, ◌<◌, ◌^◌, OnOk, OnErr};
ghost use Rattle.lists.specs.At.{at};
ghost use Rattle.lists.specs.Broken.{◌when◌, first_broken};
ghost use Rattle.lists.specs.Search.{some_below};
ghost use Rattle.plain.specs.Lanes.{no_place};
ghost use Rattle.plain.specs.Release.{releasing, release_passes, release};
ghost use Rattle.plain.specs.Updates.{with_phase, with_ups};
ghost use Rattle.quorum.specs.Limits.{most_stations};
ghost use Rattle.records.specs.View.{view, row_of};
ghost use Rattle.refusals.specs.Numbers.{refusal_of};
ghost use Rattle.calls.specs.Answers.{answered_by};

use crate::{Returned, lanes, taking};
use plain::{Message, Phase};
use records::{Record, Row, Station, UP_PLACES};
use refusals::Refusal;

// RELEASE goes up to all members of the set.
pub(crate) fn release_row(w: &mut Row, n: usize, set: u16) -> Result<(), Refusal>
    requires { (n ≤ most_stations) × (set < 2 ^ n) }
    ensures refusal { refusal_of result ≡ first_broken (no_place when some_below (release_passes set (row_of n w.old)) n ∷ []) }
    ensures row { OnOk result (row_of n w.new ≡ releasing set (row_of n w.old)) }
{
    for j in 0..n {
        if stations::has(set, j) {
            match lanes::put_to(w, j, Message::Release, UP_PLACES) {
                Ok(()) => {}
                Err(refusal) => return Err(refusal),
            }
        }
    }
    Ok(())
}

// The station has these lanes up, and is in this phase.
pub(crate) fn send_row(r: &mut Record, s: usize, row: Row, phase: Phase)
    requires { (r.old.n ≤ most_stations) × (s < r.old.n) }
    ensures { view r.new ≡ with_phase s phase (with_ups (at (view r.old).up s (row_of r.old.n row)) (view r.old)) }
{
    r.up.rows[s] = row;
    r.stations[s] = Station { phase };
}

// The station is idle, and its units are left.
pub(crate) fn give_back(r: &mut Record, s: usize) -> Result<Returned, Refusal>
    ensures answer { answered_by result (view r.new) ≡ release (view r.old) s }
    ensures refused { OnErr result (r.new ≡ r.old) }
{
    match taking::tested(r, s) {
        Ok(()) => {}
        Err(refusal) => return Err(refusal),
    }
    let Phase::Holding { quorum, units } = r.stations[s].phase else {
        return Err(Refusal::NotHolding);
    };
    let mut row = r.up.rows[s];
    match release_row(&mut row, r.n as usize, r.table[quorum as usize]) {
        Ok(()) => {}
        Err(refusal) => return Err(refusal),
    }
    send_row(r, s, row, Phase::Idle);
    Ok(Returned {
        left: units,
        ..crate::nothing()
    })
}
