// The table of one station.
ghost use Rattle.std.specs.Prelude.{◌≡◌};
ghost use Rattle.refusals.specs.Numbers.{refusal_of};
ghost use Rattle.tables.specs.Singleton.{singleton_refusal};

use refusals::Refusal;

// Whether a station is one of n, in a buffer of so many entries.
#[tactic(auto, unfolding(crate::specs::Made::no_room, crate::specs::Singleton::singleton_refusal, crate::specs::Singleton::singleton_table))]
pub(crate) fn fits(n: usize, station: usize, room: usize) -> Result<(), Refusal>
    ensures { refusal_of result ≡ singleton_refusal n station room }
{
    if !quorum::limits::up_to(quorum::MOST_STATIONS, n) {
        return Err(Refusal::BadStations);
    }
    if n <= station {
        return Err(Refusal::NoSuchStation);
    }
    crate::room::fits(1, room)
}
