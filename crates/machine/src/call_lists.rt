// Calls as numbers: whether they are of the form, and the call that four numbers stand for.
ghost use Rattle.std.specs.Prelude.{true, [], ◌∷◌, ◌++◌, ◌≡◌, ◌+◌, ◌*◌, ◌≤◌, ◌<◌, length, get_or, drop};
ghost use Rattle.std.proofs.lemmas.List.Edits.{sets};
ghost use Rattle.plain.specs.Run.{call, run as run_of, after};
ghost use Rattle.records.specs.View.{view};
ghost use Rattle.plain.specs.State.{State};
ghost use Rattle.refusals.specs.Numbers.{refusal_of};
ghost use Rattle.calls.specs.Answers.{answered_by, answer_of};
ghost use Rattle.machine.specs.Doing.{word_of};
ghost use Rattle.machine.specs.Performing.{answer_words, call_numbers, do_words, formed, well_formed, call_of, calls_of, words_of, list_refusal};

use crate::{ANSWER_NUMBERS, CALL_NUMBERS, Do};
use calls::{Answer, Returned};
use records::Record;
use refusals::Refusal;

#[tactic(auto, unfolding(crate::specs::Performing::formed))]
pub fn is_formed(what: u16, with: u16, units: u16) -> bool
    ensures { result ≡ formed what with units }
{
    match Do::try_from(what) {
        Ok(Do::Request) => true,
        Ok(Do::Up | Do::Down) => units == 0,
        Ok(Do::Release | Do::Withdraw) => with == 0 && units == 0,
        Err(_) => false,
    }
}

pub fn all_formed(calls: &[u16]) -> bool
    ensures { result ≡ well_formed calls.now }
{
    let mut rest = calls;
    while let [what, _, with, units, later @ ..] = rest {
        if !is_formed(*what, *with, *units) {
            return false;
        }
        rest = later;
    }
    rest.is_empty()
}

// The answer to a call of the form.
#[tactic(auto, unfolding(crate::specs::Performing::call_of, plain::specs::Run::call))]
fn answer_to(r: Record, what: Do, station: u16, with: u16, units: u16) -> Answer
    ensures { answer_of result ≡ call (view r) (call_of (word_of what) station with units) }
{
    let s = station as usize;
    let w = with as usize;
    match what {
        Do::Request => calls::request(r, s, w, units as usize),
        Do::Up => calls::up(r, s, w),
        Do::Down => calls::down(r, s, w),
        Do::Release => calls::release(r, s),
        Do::Withdraw => calls::withdraw(r, s),
    }
}

// Whether a list is of the form, and its answers find room in so many numbers.
pub(crate) fn tested(calls: &[u16], room: usize) -> Result<(), Refusal>
    ensures { refusal_of result ≡ list_refusal calls.now room }
{
    if !all_formed(calls) {
        return Err(Refusal::BadForm);
    }
    if room / ANSWER_NUMBERS < calls.len() / CALL_NUMBERS {
        return Err(Refusal::ShortBuffer);
    }
    Ok(())
}

// The answer to the call whose numbers begin at place i.
fn answer_at(r: Record, calls: &[u16], i: usize) -> Answer
    requires whole { i + call_numbers ≤ length calls.now }
    requires word { get_or calls.now i 0 < do_words }
    ensures { answer_of result ≡ call (view r) (call_of (get_or calls.now i 0) (get_or calls.now (i + 1) 0) (get_or calls.now (i + 2) 0) (get_or calls.now (i + 3) 0)) }
{
    match Do::try_from(calls[i]) {
        Ok(what) => answer_to(r, what, calls[i + 1], calls[i + 2], calls[i + 3]),
        Err(_) => unreachable!(),
    }
}

// The numbers of an answer: the refusal, the units entered and left, and the members still to come.
fn numbers_of(outcome: Result<Returned, Refusal>) -> [u16; ANSWER_NUMBERS]
    ensures { (st : State) → result ≡ words_of (answered_by outcome st ∷ []) }
{
    match outcome {
        Ok(returned) => {
            let Returned {
                entered,
                left,
                above,
            } = returned;
            [
                0,
                units::number_of(entered) as u16,
                units::number_of(left) as u16,
                above as u16,
            ]
        }
        Err(refusal) => [refusal.number() as u16, 0, 0, 0],
    }
}

// They are written from place `at` on.
fn write_answer(answers: &mut [u16], at: usize, numbers: [u16; ANSWER_NUMBERS])
    requires { at + answer_words ≤ length answers.old }
    ensures { answers.new ≡ sets answers.old at numbers }
{
    let [refusal, entered, left, above] = numbers;
    answers[at] = refusal;
    answers[at + 1] = entered;
    answers[at + 2] = left;
    answers[at + 3] = above;
}

// All calls of the list, each on the record that the one before returned, and their answers.
pub(crate) fn run(r: Record, calls: &[u16], answers: &mut [u16]) -> Record
    requires { (well_formed calls.now ≡ true) × (answer_words * length (calls_of calls.now) ≤ length answers.old) }
    ensures state { view result ≡ after (view r) (calls_of calls.now) }
    ensures answers { answers.new ≡ words_of (run_of (view r) (calls_of calls.now)) ++ drop (answer_words * length (calls_of calls.now)) answers.old }
{
    let mut record = r;
    for i in 0..calls.len() / CALL_NUMBERS {
        let answer = answer_at(record, calls, i * CALL_NUMBERS);
        write_answer(answers, i * ANSWER_NUMBERS, numbers_of(answer.outcome));
        record = answer.record;
    }
    record
}
