// Runs the examples of document 01 that are calls of the machine, one line a call.
#![tactic(auto)]

mod full;
mod grants;
mod marked;
mod numbers;
mod opening;
mod out_of_range;
mod performed;
mod service;
mod unused;

use scripts::by_hand;
use std::io;

// Many start from P2, or from three stations that share three units.
fn main(rt: HostRuntime) -> io::Result<()> {
    let p2 = opening::marked(&rt)?;
    let empty = opening::one_to_four(&rt)?;
    opening::six_and_seven(&rt)?;
    marked::run(&rt, p2)?;
    performed::run(&rt, p2)?;
    numbers::run(&rt, p2)?;
    let shared = by_hand::one_asked(3, 3);
    full::run(&rt, p2, shared)?;
    out_of_range::run(&rt, p2, empty)?;
    unused::run(&rt)?;
    service::run(&rt, shared)?;
    grants::run(&rt, p2)
}
