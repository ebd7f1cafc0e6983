// What a message that goes up makes of a record.
ghost use Rattle.std.specs.Prelude.{◌≡◌, OnErr};
ghost use Rattle.plain.specs.Up.{up};
ghost use Rattle.records.specs.View.{view};
ghost use Rattle.calls.specs.Answers.{answered_by};
ghost use Rattle.calls.specs.Inner.Parts.{Takes};

use crate::{Returned, lanes, sending, taking};
use plain::Message;
use records::Record;
use refusals::Refusal;

// The message m reaches arbiter j, and what it sends goes down.
fn arrive(r: &mut Record, s: usize, j: usize, m: Message) -> Result<Returned, Refusal>
    requires { Takes r.old s j (view r.old).up m }
    ensures answer { answered_by result (view r.new) ≡ up (view r.old) s j }
    ensures refused { OnErr result (r.new ≡ r.old) }
{
    let n = r.n as usize;
    let delivery = match arbiters::deliver(&r.arbiters[j], n, r.stock, s, m) {
        Ok(delivery) => delivery,
        Err(refusal) => return Err(refusal),
    };
    let mut down = r.down;
    match sending::send(&mut down, n, s, j, m, delivery.granted()) {
        Ok(()) => {}
        Err(refusal) => return Err(refusal), // in a lane down
    }
    lanes::take_between(&mut r.up, s, j);
    r.arbiters[j] = delivery.arbiter;
    r.down = down;
    Ok(crate::nothing())
}

// Up.
pub(crate) fn deliver(r: &mut Record, s: usize, j: usize) -> Result<Returned, Refusal>
    ensures answer { answered_by result (view r.new) ≡ up (view r.old) s j }
    ensures refused { OnErr result (r.new ≡ r.old) }
{
    if !records::in_range(r) {
        return Err(Refusal::OutOfRange);
    }
    match taking::oldest(&r.up, r.n as usize, s, j) {
        Ok(message) => arrive(r, s, j, message),
        Err(refusal) => Err(refusal),
    }
}
