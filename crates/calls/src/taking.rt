// What a call tests first, the record, the station and the lane; and which message is the oldest of a lane.
ghost use Rattle.std.specs.Prelude.{◌≡◌, ◌≤◌, ◌<◌, OnOk, IfOk};
ghost use Rattle.lists.specs.Broken.{first_broken};
ghost use Rattle.plain.specs.Delivery.{lane_tests};
ghost use Rattle.quorum.specs.Limits.{most_stations};
ghost use Rattle.records.specs.View.{view, lanes_of};
ghost use Rattle.refusals.specs.Numbers.{refusal_of};
ghost use Rattle.calls.specs.Inner.Parts.{station_tests, Stands, Took};

use plain::Message;
use records::{Lanes, Record};
use refusals::Refusal;

// Of Request, Release and Withdraw: the record is in range, and has the station.
pub(crate) fn tested(r: &Record, s: usize) -> Result<(), Refusal>
    ensures refusal { refusal_of result ≡ first_broken (station_tests (view r.now) s) }
    ensures passed { OnOk result (Stands r.now s) }
{
    if !records::in_range(r) {
        return Err(Refusal::OutOfRange);
    }
    if r.n as usize <= s {
        return Err(Refusal::NoSuchStation);
    }
    Ok(())
}

// Of Up and Down: the oldest message in the lane of station s and arbiter j.
pub(crate) fn oldest(all: &Lanes, n: usize, s: usize, j: usize) -> Result<Message, Refusal>
    requires { n ≤ most_stations }
    ensures refusal { refusal_of result ≡ first_broken (lane_tests n s j (lanes_of n all.now s j)) }
    ensures took { IfOk result (λ m. Took n s j (lanes_of n all.now) m) }
{
    if n <= s || n <= j {
        return Err(Refusal::NoSuchStation);
    }
    let lane = all.rows[s].lanes[j];
    if lane.len == 0 {
        return Err(Refusal::EmptyLane);
    }
    Ok(lane.slots[0].message)
}
