// Whether lanes are in range: up and down alike.
ghost use Rattle.std.specs.Prelude.{◌≡◌};
ghost use Rattle.lists.specs.Search.{all};
ghost use Rattle.records.specs.View.{message_of, lane_of, row_of};

use crate::bounds::Bounds;
use crate::{DOWN_PLACES, Lane, Row, Slot, UP_PLACES};
use plain::Message;
use units::Units;

// Where the messages of a lane go: up from a station, where a REQUEST is for units of this stock, or down to one.
#[derive(Clone, Copy)]
pub(crate) enum Direction {
    Up(Units),
    Down,
}

impl Direction {
    ghost use Rattle.records.specs.Inner.Ranges.{goes, lane_places, lane_in, row_in};

    // Whether a message may stand in a lane of this direction.
    #[tactic(auto, unfolding(plain::specs::InRange::goes_up, plain::specs::InRange::goes_down))]
    fn goes(self, m: Message) -> bool
        ensures { result ≡ goes self m }
    {
        match (self, m) {
            (Direction::Up(stock), Message::Request(h)) => units::request_in(stock, h),
            (Direction::Up(_), Message::Release | Message::Withdraw) => true,
            (Direction::Down, Message::Grant | Message::Gone) => true,
            _ => false,
        }
    }

    // The limit of a lane of this direction.
    fn places(self) -> usize
        ensures { result ≡ lane_places self }
    {
        match self {
            Direction::Up(_) => UP_PLACES,
            Direction::Down => DOWN_PLACES,
        }
    }

    fn slots_in(self, slots: &[Slot]) -> bool
        ensures { result ≡ all (λ s. goes self (message_of s)) slots.now }
    {
        for slot in slots {
            if !self.goes(slot.message) {
                return false;
            }
        }
        true
    }

    // Whether a lane keeps its limit and has only such messages.
    #[tactic(auto, using(crate::proofs::Ranging::lane_long, crate::proofs::Ranging::lane_kept, std::proofs::lemmas::Grind::common_steps))]
    fn lane_in(self, l: &Lane) -> bool
        ensures { result ≡ lane_in self (lane_of l.now) }
    {
        let len = l.len as usize;
        len <= self.places() && self.slots_in(&l.slots[..len])
    }

    fn lanes_in(self, lanes: &[Lane]) -> bool
        ensures { result ≡ all (λ l. lane_in self (lane_of l)) lanes.now }
    {
        for l in lanes {
            if !self.lane_in(l) {
                return false;
            }
        }
        true
    }

    #[tactic(auto, using(crate::proofs::Ranging::row_kept))]
    fn row_in(self, b: Bounds, w: &Row) -> bool
        ensures { result ≡ row_in self b.stations (row_of b.stations w.now) }
    {
        self.lanes_in(&w.lanes[..b.stations])
    }

    pub fn rows_in(self, b: Bounds, rows: &[Row]) -> bool
        ensures { result ≡ all (λ w. row_in self b.stations (row_of b.stations w)) rows.now }
    {
        for w in rows {
            if !self.row_in(b, w) {
                return false;
            }
        }
        true
    }
}
