// What a station makes of a message that comes down.
ghost use Rattle.std.specs.Prelude.{true, List, ◌≡◌, ℕ, ◌<◌, ◌^◌, OnErr};
ghost use Rattle.plain.specs.Answer.{done};
ghost use Rattle.plain.specs.Down.{onward as onward_of, taken, down};
ghost use Rattle.plain.specs.declared.Message.TheVariants.{Grant, Gone};
ghost use Rattle.quorum.specs.Family.{quorum as quorum_of};
ghost use Rattle.quorum.specs.Limits.{most_stations};
ghost use Rattle.records.specs.View.{view};
ghost use Rattle.calls.specs.Answers.{answered_by, returned_of};
ghost use Rattle.calls.specs.Inner.Parts.{after_gone as after_gone_rule, Takes, Wishes};
ghost use Rattle.calls.specs.Inner.Takings.{taken_of, within};

use crate::asking::Wish;
use crate::{Returned, asking, lanes, taking};
use plain::{Message, Phase};
use records::Record;
use refusals::Refusal;
use units::Units;

// Of a GRANT: it asks the next member of its quorum, it holds its units, or it drops the message.
#[derive(Clone, Copy)]
pub(crate) enum Taking {
    Asks(Wish),
    Holds { quorum: u8, units: Units },
    Drops,
}

// With a member above j left in the quorum's set, the lowest such member is asked; otherwise the station holds.
fn onward(set: u16, n: usize, j: usize, quorum: u8, units: Units) -> Taking
    requires { (set < 2 ^ n) × (j < most_stations) }
    ensures taking { (table : List ℕ) → quorum_of table quorum ≡ set → taken_of result ≡ onward_of table quorum units j }
    ensures within { (table : List ℕ) → quorum_of table quorum ≡ set → within n table result ≡ true }
{
    match stations::lowest_from(set, j + 1) {
        Some(next) => Taking::Asks(Wish {
            quorum,
            units,
            member: next.member as u8,
            above: next.above as u8,
        }),
        None => Taking::Holds { quorum, units },
    }
}

// What a station in the phase p makes of a GRANT from arbiter j.
fn granted(p: Phase, n: usize, j: usize, table: &[u16]) -> Taking
    requires { (j < most_stations) × Wishes n table.now p }
    ensures taking { taken_of result ≡ taken table.now j p }
    ensures within { within n table.now result ≡ true }
{
    match p {
        Phase::Collecting {
            quorum,
            units,
            member,
        } => {
            if member as usize != j {
                return Taking::Drops;
            }
            onward(table[quorum as usize], n, j, quorum, units)
        }
        _ => Taking::Drops,
    }
}

// GRANT reaches station s.
fn told_grant(r: &mut Record, s: usize, j: usize) -> Result<Returned, Refusal>
    requires { Takes r.old s j (view r.old).down Grant }
    ensures answer { answered_by result (view r.new) ≡ down (view r.old) s j }
    ensures refused { OnErr result (r.new ≡ r.old) }
{
    let table = &r.table[..r.quorums as usize];
    match granted(r.stations[s].phase, r.n as usize, j, table) {
        Taking::Asks(wish) => {
            match asking::ask(r, s, wish) {
                Ok(returned) => {
                    lanes::take_between(&mut r.down, s, j);
                    Ok(returned)
                }
                Err(refusal) => Err(refusal),
            }
        }
        Taking::Holds { quorum, units } => {
            lanes::take_between(&mut r.down, s, j);
            r.stations[s].phase = Phase::Holding { quorum, units };
            Ok(Returned {
                entered: units,
                ..crate::nothing()
            })
        }
        Taking::Drops => {
            lanes::take_between(&mut r.down, s, j);
            Ok(crate::nothing())
        }
    }
}

// What a station does after a GONE.
fn after_gone(p: Phase) -> Phase
    ensures { result ≡ after_gone_rule p }
{
    match p {
        Phase::Withdrawing => Phase::Idle,
        _ => p,
    }
}

// GONE reaches it.
fn told_gone(r: &mut Record, s: usize, j: usize) -> Returned
    requires { Takes r.old s j (view r.old).down Gone }
    ensures { done (returned_of result) (view r.new) ≡ down (view r.old) s j }
{
    lanes::take_between(&mut r.down, s, j);
    r.stations[s].phase = after_gone(r.stations[s].phase);
    crate::nothing()
}

// The message m reaches it; no lane down in range has another than GRANT and GONE.
fn receive(r: &mut Record, s: usize, j: usize, m: Message) -> Result<Returned, Refusal>
    requires { Takes r.old s j (view r.old).down m }
    ensures answer { answered_by result (view r.new) ≡ down (view r.old) s j }
    ensures refused { OnErr result (r.new ≡ r.old) }
{
    match m {
        Message::Grant => told_grant(r, s, j),
        Message::Gone => Ok(told_gone(r, s, j)),
        _ => {
            lanes::take_between(&mut r.down, s, j);
            Ok(crate::nothing())
        }
    }
}

// Down. No twin of Up: other lanes, another definition, and what follows is another part; one function of both would take all three.
pub(crate) fn deliver(r: &mut Record, s: usize, j: usize) -> Result<Returned, Refusal>
    ensures answer { answered_by result (view r.new) ≡ down (view r.old) s j }
    ensures refused { OnErr result (r.new ≡ r.old) }
{
    if !records::in_range(r) {
        return Err(Refusal::OutOfRange);
    }
    match taking::oldest(&r.down, r.n as usize, s, j) {
        Ok(message) => receive(r, s, j, message),
        Err(refusal) => Err(refusal),
    }
}
