// Runs the examples of withdrawing, one line a call.
#![tactic(auto)]

mod by_calls;
mod gone;
mod ranges;
mod rooms;

use scripts::by_hand;
use std::io;

// Many start from P2, or from three stations that share three units and all ask station 0.
fn main(rt: HostRuntime) -> io::Result<()> {
    let p2 = by_hand::fresh(3, 1, &[3, 5, 6]);
    by_calls::run(&rt, p2, by_hand::one_asked(3, 3))?;
    gone::run(&rt, p2)?;
    rooms::run(&rt, p2)?;
    ranges::run(&rt, p2)
}
