// A message that reaches a station's own arbiter, as a caller from C or Rust says it, and what C is answered.
ghost use Rattle.std.specs.Prelude.{◌≡◌, ◌<◌};
ghost use Rattle.arbiters.specs.Lent.{lent_of};
ghost use Rattle.quorum.specs.Limits.{most_stations};
ghost use Rattle.records.specs.View.{arbiter_of};
ghost use Rattle.units.specs.Units.{stock_of};
ghost use Rattle.pafluzeno.specs.Arriving.{arriving, Numbered, Understood};
ghost use Rattle.pafluzeno.specs.Replying.{replied};

use arbiters::{Incoming, Settled, Upward};
use records::Arbiter;
use refusals::Refusal;

// The messages by number.
#[derive(Clone, Copy, Debug, PartialEq, Eq)]
pub enum MessageKind {
    Release = 0,
    Request = 1,
    Withdraw = 2,
}

// A message that reaches a station's own arbiter: the stock, the station that sent it, the number of the message, and the units of a REQUEST.
// A number for the message: the C interface.
#[repr(C)]
#[derive(Clone, Copy)]
pub struct Arrival {
    pub stock: usize,
    pub station: usize,
    pub message: u8,
    pub units: usize,
}

// What C is answered: the refusal, and the set of stations granted. Numbers: the C interface.
#[repr(C)]
#[derive(Clone, Copy)]
pub struct Reply {
    pub refusal: u8,
    pub granted: u16,
}

impl TryFrom<u8> for MessageKind {
    type Error = Refusal;

    ghost try_from_gives = { Numbered };

    fn try_from(number: u8) -> Result<MessageKind, Refusal> {
        match number {
            0 => Ok(MessageKind::Release),
            1 => Ok(MessageKind::Request),
            2 => Ok(MessageKind::Withdraw),
            _ => Err(Refusal::BadForm),
        }
    }
}

impl TryFrom<Arrival> for Incoming {
    type Error = Refusal;

    ghost try_from_gives = { Understood };

    #[tactic(auto, unfolding(crate::specs::Arriving::upward_of))]
    fn try_from(m: Arrival) -> Result<Incoming, Refusal> {
        let message = match MessageKind::try_from(m.message)? {
            MessageKind::Release => Upward::Release,
            MessageKind::Request => Upward::Request(m.units),
            MessageKind::Withdraw => Upward::Withdraw,
        };
        Ok(Incoming {
            stock: m.stock,
            station: m.station,
            message,
        })
    }
}

#[tactic(auto, unfolding(crate::specs::Arriving::arriving, arbiters::specs::Lent::lent_of))]
fn settled(a: &Arbiter, m: Arrival) -> Result<Settled, Refusal>
    ensures { lent_of a.now result ≡ arriving (stock_of m.stock) m.station m.message m.units (arbiter_of most_stations a.now) }
{
    let incoming = Incoming::try_from(m)?;
    arbiters::settle(a, incoming)
}

// A station lends its own arbiter's record to one call for each message that reaches it. The call applies the arbiter's part of Up and
// answers the set of stations granted; a refusal answers the empty set and changes nothing.
#[tactic(auto, unfolding(crate::specs::Replying::replied, arbiters::specs::Lent::lent_of))]
#[unsafe(no_mangle)]
pub extern "C" fn pafluzeno_tell(a: &mut Arbiter, m: Arrival) -> Reply
    ensures { (replied result a.new ≡ arriving (stock_of m.stock) m.station m.message m.units (arbiter_of most_stations a.old)) × (0 < result.refusal → a.new ≡ a.old) }
{
    match settled(a, m) {
        Ok(settled) => {
            let after = settled.arbiter;
            *a = after;
            Reply {
                refusal: 0,
                granted: settled.granted,
            }
        }
        Err(refusal) => Reply {
            refusal: refusal.number(),
            granted: 0,
        },
    }
}
