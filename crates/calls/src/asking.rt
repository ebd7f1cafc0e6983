// Request; and a station asks a member of its quorum, alike in Request and in Down.
ghost use Rattle.std.specs.Prelude.{◌≡◌, ◌≤◌, ◌<◌, OnErr};
ghost use Rattle.plain.specs.Request.{is_idle as is_idle_rule, request as request_of};
ghost use Rattle.quorum.specs.Limits.{most_stations};
ghost use Rattle.records.specs.View.{view};
ghost use Rattle.units.specs.Units.{units_of as units_of_rule};
ghost use Rattle.calls.specs.Answers.{answered_by};
ghost use Rattle.calls.specs.Inner.Parts.{ask_answer};

use crate::{Returned, lanes, taking};
use plain::{Message, Phase};
use records::{Record, UP_PLACES};
use refusals::Refusal;
use units::Units;

// What a station asks for: units, of a member of its quorum, above which so many members lie.
#[derive(Clone, Copy)]
pub(crate) struct Wish {
    pub quorum: u8,
    pub units: Units,
    pub member: u8,
    pub above: u8,
}

// REQUEST goes up to the member, and the station collects from it.
pub(crate) fn ask(r: &mut Record, s: usize, wish: Wish) -> Result<Returned, Refusal>
    requires { (r.old.n ≤ most_stations) × (s < r.old.n) × (wish.member < r.old.n) }
    ensures answer { answered_by result (view r.new) ≡ ask_answer (view r.old) s wish.quorum wish.units wish.member wish.above }
    ensures others { (r.new.n ≡ r.old.n) × (r.new.down ≡ r.old.down) }
    ensures refused { OnErr result (r.new ≡ r.old) }
{
    let Wish {
        quorum,
        units,
        member,
        above,
    } = wish;
    let to = member as usize;
    match lanes::put_between(&mut r.up, s, to, Message::Request(units), UP_PLACES) {
        Ok(()) => {}
        Err(refusal) => return Err(refusal),
    }
    r.stations[s].phase = Phase::Collecting {
        quorum,
        units,
        member,
    };
    Ok(Returned {
        above,
        ..crate::nothing()
    })
}

fn is_idle(p: Phase) -> bool
    ensures { result ≡ is_idle_rule p }
{
    matches!(p, Phase::Idle)
}

// The lowest member of the quorum is asked.
pub(crate) fn request(r: &mut Record, s: usize, q: usize, h: usize) -> Result<Returned, Refusal>
    ensures answer { answered_by result (view r.new) ≡ request_of (view r.old) s q (units_of_rule h) }
    ensures refused { OnErr result (r.new ≡ r.old) }
{
    match taking::tested(r, s) {
        Ok(()) => {}
        Err(refusal) => return Err(refusal),
    }
    if r.quorums as usize <= q {
        return Err(Refusal::NoSuchQuorum);
    }
    let units = units::units_of(h);
    if !units::request_in(r.stock, units) {
        return Err(Refusal::BadUnits);
    }
    if !is_idle(r.stations[s].phase) {
        return Err(Refusal::NotIdle);
    }
    let Some(next) = stations::lowest_from(r.table[q], 0) else {
        return Err(Refusal::BadQuorum); // it never comes here: no quorum is empty
    };
    let wish = Wish {
        quorum: q as u8,
        units,
        member: next.member as u8,
        above: next.above as u8,
    };
    ask(r, s, wish)
}
