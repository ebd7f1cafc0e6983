// How an example is run and printed: tables that are opened, texts and lists of calls, and records made by hand.
#![tactic(auto)]

pub mod by_hand;
pub mod changed;
pub mod filled;
pub mod listed;
pub mod opened;
pub mod script;
