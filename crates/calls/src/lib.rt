// The five calls of a station on a record by value: each tests its refusals in their order, then does what is asked.
#![tactic(auto)]

// No `?`, no `unwrap` and no chain in this crate: the program that `program-has` of `claim` is of has no function of the library.

ghost use Rattle.std.specs.Prelude.{◌≡◌, OnErr};
ghost use Rattle.plain.specs.Answer.{nothing as nothing_rule};
ghost use Rattle.plain.specs.Down.{down as down_of};
ghost use Rattle.plain.specs.Release.{release as release_of};
ghost use Rattle.plain.specs.Request.{request as request_of};
ghost use Rattle.plain.specs.Up.{up as up_of};
ghost use Rattle.plain.specs.Withdraw.{withdraw as withdraw_of};
ghost use Rattle.records.specs.View.{view};
ghost use Rattle.units.specs.Units.{units_of as units_of_rule};
ghost use Rattle.calls.specs.Answers.{answer_of, returned_of};

use records::Record;
use refusals::Refusal;
use units::Units;

mod asking;
mod downs;
mod lanes;
mod releases;
mod sending;
mod taking;
mod ups;
mod withdrawals;

// What a call that is not refused returns: the units entered and left; and, where REQUEST was sent, the number of members above the one that it went
// to, else 0.
#[derive(Clone, Copy)]
pub struct Returned {
    pub entered: Units,
    pub left: Units,
    pub above: u8,
}

// What a call answers. A refused call hands back the record that it was given.
#[derive(Clone, Copy)]
pub struct Answer {
    pub outcome: Result<Returned, Refusal>,
    pub record: Record,
}

// No units are entered or left, and no REQUEST was sent.
fn nothing() -> Returned
    ensures { returned_of result ≡ nothing_rule }
{
    Returned {
        entered: units::no_units(),
        left: units::no_units(),
        above: 0,
    }
}

// Station s asks for so many units by quorum q: it collects, and REQUEST goes up to the quorum's lowest member.
#[inline(never)]
pub fn request(r: Record, s: usize, q: usize, h: usize) -> Answer
    ensures answer { answer_of result ≡ request_of (view r) s q (units_of_rule h) }
    ensures refused { OnErr result.outcome (result.«record» ≡ r) }
{
    let mut record = r;
    let outcome = asking::request(&mut record, s, q, h);
    Answer { outcome, record }
}

// The oldest message of station s to arbiter j is delivered.
#[inline(never)]
pub fn up(r: Record, s: usize, j: usize) -> Answer
    ensures answer { answer_of result ≡ up_of (view r) s j }
    ensures refused { OnErr result.outcome (result.«record» ≡ r) }
{
    let mut record = r;
    let outcome = ups::deliver(&mut record, s, j);
    Answer { outcome, record }
}

// The oldest message of arbiter j to station s is delivered.
#[inline(never)]
pub fn down(r: Record, s: usize, j: usize) -> Answer
    ensures answer { answer_of result ≡ down_of (view r) s j }
    ensures refused { OnErr result.outcome (result.«record» ≡ r) }
{
    let mut record = r;
    let outcome = downs::deliver(&mut record, s, j);
    Answer { outcome, record }
}

// Station s gives its units back.
#[inline(never)]
pub fn release(r: Record, s: usize) -> Answer
    ensures answer { answer_of result ≡ release_of (view r) s }
    ensures refused { OnErr result.outcome (result.«record» ≡ r) }
{
    let mut record = r;
    let outcome = releases::give_back(&mut record, s);
    Answer { outcome, record }
}

// Station s gives up what it asked for.
#[inline(never)]
pub fn withdraw(r: Record, s: usize) -> Answer
    ensures answer { answer_of result ≡ withdraw_of (view r) s }
    ensures refused { OnErr result.outcome (result.«record» ≡ r) }
{
    let mut record = r;
    let outcome = withdrawals::give_up(&mut record, s);
    Answer { outcome, record }
}
