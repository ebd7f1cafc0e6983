// Whether a table may be written: not above 64 quorums, and not longer than the lent buffer.
ghost use Rattle.std.specs.Prelude.{◌≡◌};
ghost use Rattle.refusals.specs.Numbers.{refusal_of};
ghost use Rattle.tables.specs.Made.{no_room as no_room_rule};

use refusals::Refusal;

// Whether so many quorums fit a buffer of so many entries.
#[tactic(auto, unfolding(crate::specs::Made::no_room))]
pub(crate) fn fits(quorums: usize, room: usize) -> Result<(), Refusal>
    ensures { refusal_of result ≡ no_room_rule quorums room }
{
    if quorum::MOST_QUORUMS < quorums {
        return Err(Refusal::TooManyQuorums);
    }
    if room < quorums {
        return Err(Refusal::ShortBuffer);
    }
    Ok(())
}
