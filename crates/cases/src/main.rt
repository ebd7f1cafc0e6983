// Runs the examples of documents 01 and 02 that are tables and prints what each answers, one line an example, and one more for the outages that its
// table survives.
#![tactic(auto)]

mod counts;
mod even;
mod made;
mod makers;
mod marked;
mod order;
mod ready;
mod refused;
mod table;

use std::io;

fn main(rt: HostRuntime) -> io::Result<()> {
    marked::tables(&rt)?;
    refused::tables(&rt)?;
    even::tables(&rt)?;
    order::tables(&rt)?;
    makers::tables(&rt)?;
    ready::tables(&rt)
}
