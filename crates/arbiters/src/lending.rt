// What the call for one message makes of a station's own arbiter record, which it is lent.
ghost use Rattle.std.specs.Prelude.{true, false, ◌≡◌, ◌≤◌, MatchResult};
ghost use Rattle.quorum.specs.Limits.{most_stations, most_units};
ghost use Rattle.records.specs.View.{arbiter_of};
ghost use Rattle.units.specs.Units.{stock_of as stock_of_rule, asked_with};
ghost use Rattle.arbiters.specs.Lent.{is_granted as is_granted_rule, granted_set as granted_set_rule, bad_units, sent_up, lending, lent_of};

use crate::{Incoming, Settled, Upward, delivery};
use plain::{Entry, Message};
use records::{Arbiter, STATIONS};
use refusals::Refusal;
use units::Units;

// Whether station t is among those of the entries granted.
fn is_granted(granted: &[Entry], t: usize) -> bool
    ensures { result ≡ is_granted_rule granted.now t }
{
    granted.iter().any(|e| e.station as usize == t)
}

// The stations of the entries granted, as a set.
#[tactic(auto, using(stations::proofs::Built::set_pass, stations::proofs::Built::set_fail, stations::proofs::Built::set_below, stations::proofs::Built::only_below, std::proofs::lemmas::Grind::common_steps), unfolding(stations::specs::Sets::set_of))]
fn granted_set(granted: &[Entry]) -> u16
    ensures { result ≡ granted_set_rule granted.now }
{
    let mut set = 0;
    for t in 0..STATIONS {
        if is_granted(granted, t) {
            set += stations::only(t);
        }
    }
    set
}

// The message in the machine's own form; a REQUEST asks for units in 1..k.
#[tactic(auto, using(crate::proofs::LendingArbiter::stored_units, std::proofs::lemmas::Grind::common_steps))]
fn sent(m: Upward, stock: Units) -> Result<Message, Refusal>
    requires { asked_with stock ≤ most_units }
    ensures { MatchResult result (λ up. (bad_units stock m ≡ false) × (up ≡ sent_up m)) (λ r. (bad_units stock m ≡ true) × (r ≡ Refusal.BadUnits)) }
{
    match m {
        Upward::Request(h) => {
            let u = units::units_of(h);
            if !units::request_in(stock, u) {
                return Err(Refusal::BadUnits);
            }
            Ok(Message::Request(u))
        }
        Upward::Release => Ok(Message::Release),
        Upward::Withdraw => Ok(Message::Withdraw),
    }
}

// A message of a station, whose stock and number any caller may give: the arbiter's part of Up on its record. A refusal leaves the record as it
// was, since it is only lent.
#[tactic(auto, using(crate::proofs::LendingArbiter::settle_steps, std::proofs::lemmas::Grind::common_steps), unfolding(crate::specs::Lent::lent_of, crate::specs::Lent::lending, crate::specs::Lent::lent_by))]
pub fn settle(a: &Arbiter, i: Incoming) -> Result<Settled, Refusal>
    ensures { lent_of a.now result ≡ lending (stock_of_rule i.stock) i.station i.message (arbiter_of most_stations a.now) }
{
    let stock = units::stock_of(i.stock);
    if !quorum::limits::up_to(quorum::MOST_UNITS, units::asked_with(stock)) {
        return Err(Refusal::BadStock);
    }
    if !records::arbiter_in_range(a, STATIONS, stock) {
        return Err(Refusal::OutOfRange);
    }
    if STATIONS <= i.station {
        return Err(Refusal::NoSuchStation);
    }
    let m = sent(i.message, stock)?;
    let delivery = delivery::deliver(a, STATIONS, stock, i.station, m)?;
    Ok(Settled {
        granted: granted_set(delivery.granted()),
        arbiter: delivery.arbiter,
    })
}
