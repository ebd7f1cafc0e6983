// The arbiter's part of Up: a message arrives, then the line is served.
ghost use Rattle.std.specs.Prelude.{[], ◌∷◌, ◌≡◌, ℕ, ◌≤◌, ◌<◌, IfOk};
ghost use Rattle.lists.specs.Broken.{◌when◌, first_broken};
ghost use Rattle.lists.specs.Search.{all};
ghost use Rattle.plain.specs.Arbiter.{arrived};
ghost use Rattle.plain.specs.Lanes.{line_places, passes};
ghost use Rattle.quorum.specs.Limits.{most_stations};
ghost use Rattle.refusals.specs.Numbers.{refusal_of};
ghost use Rattle.records.specs.View.{arbiter_of};
ghost use Rattle.arbiters.specs.Telling.{is_of, servable, line_full, telling, told_of};

use crate::{Delivery, dropping, service};
use plain::{Entry, Message};
use records::{Arbiter, LINE_PLACES, STATIONS};
use refusals::Refusal;
use units::Units;

pub(crate) fn is_of(e: Entry, n: usize) -> bool
    ensures { result ≡ is_of n e }
{
    (e.station as usize) < n
}

pub(crate) fn all_of(line: &[Entry], n: usize) -> bool
    ensures { result ≡ all (is_of n) line.now }
{
    // no `all`: the program that `program-has` of `claim` is of has no function of the library
    for e in line {
        if !is_of(*e, n) {
            return false;
        }
    }
    true
}

// The line alone is looked at: no other part of an arbiter can lead out of the arrays.
#[tactic(auto, using(crate::proofs::TellingArbiter::too_many, crate::proofs::TellingArbiter::too_long, crate::proofs::TellingArbiter::by_entries, lists::proofs::Slices::front_cut, std::proofs::lemmas::Grind::common_steps))]
pub(crate) fn is_servable(a: &Arbiter, n: usize) -> bool
    ensures { result ≡ servable n (arbiter_of n a.now) }
{
    let len = a.len as usize;
    if LINE_PLACES < len {
        return false;
    }
    n <= STATIONS && all_of(&a.line[..len], n)
}

// REQUEST joins the line, unless that is full; RELEASE clears the station's units; WITHDRAW clears them and drops its entries.
// That the line fits its array is asked here, of `forget` and of `serve`, and is no type's: C fills an `Arbiter` with anything.
#[tactic(auto, using(crate::proofs::ArrivingMessage::arriving, records::proofs::Good::line_of, records::proofs::Good::granted_of_lem, std::proofs::lemmas::Grind::common_steps), unfolding(plain::specs::Arbiter::arrived))]
pub(crate) fn arrive(mut a: Arbiter, s: usize, m: Message) -> Result<Arbiter, Refusal>
    requires { (s < most_stations) × (a.len ≤ line_places) }
    ensures refusal { (n : ℕ) → refusal_of result ≡ first_broken (line_full when passes line_places (arrived m s (arbiter_of n a)).line ∷ []) }
    ensures arbiter { (n : ℕ) → s < n → IfOk result (λ next. arbiter_of n next ≡ arrived m s (arbiter_of n a)) }
{
    match m {
        Message::Request(h) => {
            let at = a.len as usize;
            if LINE_PLACES <= at {
                return Err(Refusal::NoPlace);
            }
            a.line[at] = Entry {
                station: s as u8,
                units: h,
            };
            a.len += 1;
        }
        Message::Release => a.granted[s] = units::no_units(),
        Message::Withdraw => a = dropping::forget(a, s),
        Message::Grant | Message::Gone => {}
    }
    Ok(a)
}

// The message m of station s reaches an arbiter of n stations with this stock. Any caller may give any of them.
#[tactic(auto, using(crate::proofs::TellingArbiter::delivery_steps, std::proofs::lemmas::Grind::common_steps), unfolding(crate::specs::Telling::told_of, crate::specs::Telling::telling))]
pub fn deliver(
    a: &Arbiter,
    n: usize,
    stock: Units,
    s: usize,
    m: Message,
) -> Result<Delivery, Refusal>
    ensures { told_of n a.now result ≡ telling n stock s m (arbiter_of n a.now) }
{
    if !is_servable(a, n) {
        return Err(Refusal::OutOfRange);
    }
    if n <= s {
        return Err(Refusal::NoSuchStation);
    }
    // no `?`: the program that `program-has` of `claim` is of has no function of the library
    let joined = match arrive(*a, s, m) {
        Ok(joined) => joined,
        Err(refusal) => return Err(refusal),
    };
    Ok(service::serve(joined, n, stock))
}
