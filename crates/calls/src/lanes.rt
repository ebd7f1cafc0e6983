// Messages join and leave lanes: what is new stands last, what is oldest leaves first. A step each for a lane, the lanes of a station, and all lanes.
ghost use Rattle.std.specs.Prelude.{[], ◌∷◌, ◌≡◌, ℕ, ◌≤◌, ◌<◌, OnOk, OnErr, drop, get_or};
ghost use Rattle.lists.specs.At.{at, at2};
ghost use Rattle.lists.specs.Broken.{◌when◌, first_broken};
ghost use Rattle.plain.specs.Lanes.{up_places, no_place, passes, sent};
ghost use Rattle.quorum.specs.Limits.{most_stations};
ghost use Rattle.records.specs.View.{no_lane, lane_of, row_of, lanes_of};
ghost use Rattle.refusals.specs.Numbers.{refusal_of};
ghost use Rattle.calls.specs.Inner.Parts.{Takeable};

use plain::Message;
use records::{Lane, Lanes, Row, Slot};
use refusals::Refusal;

// The lane has one message more, unless it would pass its limit of so many places.
fn put(l: &mut Lane, m: Message, places: usize) -> Result<(), Refusal>
    requires { places ≤ up_places }
    ensures refusal { refusal_of result ≡ first_broken (no_place when passes places (sent (lane_of l.old) m) ∷ []) }
    ensures lane { OnOk result (lane_of l.new ≡ sent (lane_of l.old) m) }
    ensures refused { OnErr result (l.new ≡ l.old) }
{
    let at = l.len as usize;
    if places <= at {
        return Err(Refusal::NoPlace);
    }
    l.slots[at] = Slot { message: m };
    l.len += 1;
    Ok(())
}

// The lane to arbiter j.
pub(crate) fn put_to(w: &mut Row, j: usize, m: Message, places: usize) -> Result<(), Refusal>
    requires { (places ≤ up_places) × (j < most_stations) }
    ensures refusal { (n : ℕ) → j < n → refusal_of result ≡ first_broken (no_place when passes places (sent (row_of n w.old j) m) ∷ []) }
    ensures row { OnOk result ((n : ℕ) → j < n → row_of n w.new ≡ at (row_of n w.old) j (sent (row_of n w.old j) m)) }
    ensures refused { OnErr result (w.new ≡ w.old) }
{
    put(&mut w.lanes[j], m, places)
}

// The lane of station s and arbiter j.
pub(crate) fn put_between(
    all: &mut Lanes,
    s: usize,
    j: usize,
    m: Message,
    places: usize,
) -> Result<(), Refusal>
    requires { (places ≤ up_places) × (s < most_stations) × (j < most_stations) }
    ensures refusal { (n : ℕ) → s < n → j < n → refusal_of result ≡ first_broken (no_place when passes places (sent (lanes_of n all.old s j) m) ∷ []) }
    ensures lanes { OnOk result ((n : ℕ) → s < n → j < n → lanes_of n all.new ≡ at2 (lanes_of n all.old) s j (sent (lanes_of n all.old s j) m)) }
    ensures refused { OnErr result (all.new ≡ all.old) }
{
    put_to(&mut all.rows[s], j, m, places)
}

// The oldest message leaves, and the others move one place on.
fn take(l: &mut Lane)
    requires { (0 < l.old.len) × (l.old.len ≤ up_places) }
    ensures { lane_of l.new ≡ drop 1 (lane_of l.old) }
{
    let [_, second, third, fourth] = l.slots;
    l.slots = [second, third, fourth, fourth];
    l.len -= 1;
}

// The lane to arbiter j.
fn take_to(w: &mut Row, j: usize)
    requires { (j < most_stations) × (0 < (get_or w.old.lanes j no_lane).len) × ((get_or w.old.lanes j no_lane).len ≤ up_places) }
    ensures { (n : ℕ) → j < n → row_of n w.new ≡ at (row_of n w.old) j (drop 1 (row_of n w.old j)) }
{
    take(&mut w.lanes[j]);
}

// The lane of station s and arbiter j.
pub(crate) fn take_between(all: &mut Lanes, s: usize, j: usize)
    requires { Takeable all.old s j }
    ensures { (n : ℕ) → s < n → j < n → lanes_of n all.new ≡ at2 (lanes_of n all.old) s j (drop 1 (lanes_of n all.old s j)) }
{
    take_to(&mut all.rows[s], j);
}
