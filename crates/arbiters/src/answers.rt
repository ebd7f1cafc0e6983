// What an arbiter's part of the machine answers.
ghost use Rattle.std.specs.Prelude.{◌≡◌, ◌≤◌};
ghost use Rattle.lists.specs.Cut.{cut};
ghost use Rattle.plain.specs.Lanes.{line_places};
ghost use Rattle.records.specs.View.{no_entry};

use plain::Entry;
use records::{Arbiter, LINE_PLACES};

// What a message makes of an arbiter. Granted are the first entries of the line that the message has joined. They stand in an array with a length
// beside it, and `granted` is their slice: there is no heap for a Vec, and nobody else has that line.
#[derive(Clone, Copy)]
pub struct Delivery {
    pub arbiter: Arbiter,
    pub grants: usize,
    pub line: [Entry; LINE_PLACES],
    ghost within: { grants ≤ line_places },
}

impl Delivery {
    // The entries granted, in their order.
    #[tactic(auto, using(lists::proofs::Slices::fronts))]
    pub fn granted(&self) -> &[Entry]
        ensures { result.now ≡ cut no_entry self.now.grants self.now.line }
    {
        &self.line[..self.grants]
    }
}

// What is answered to a message that reaches a station's own arbiter: the set of stations granted, and the arbiter's record after it.
#[derive(Clone, Copy)]
pub struct Settled {
    pub granted: u16,
    pub arbiter: Arbiter,
}
