// An arbiter's part of the machine: what one message makes of its record.
#![tactic(auto)]

mod answers;
mod delivery;
mod dropping;
mod lending;
mod service;

pub use answers::{Delivery, Settled};
pub use delivery::deliver;
pub use lending::settle;

// What a station sends up to an arbiter.
// No twin of `Message`: the units are still a caller's number, and what comes down is none of it.
#[derive(Clone, Copy, Debug, PartialEq, Eq)]
pub enum Upward {
    Request(usize),
    Release,
    Withdraw,
}

// A message that reaches a station's own arbiter: the stock, the station that sent it, and the message.
#[derive(Clone, Copy, Debug, PartialEq, Eq)]
pub struct Incoming {
    pub stock: usize,
    pub station: usize,
    pub message: Upward,
}
