// A record with one part made by hand: what the part is, and a call's line.
use crate::by_hand::{self, Way};
use crate::script;
use plain::Message;
use records::Record;
use std::io;

// The words of the examples' lines alone: no Display of the message.
fn print_message(rt: &impl Print, m: Message) -> io::Result<()> {
    match m {
        Message::Request(units) => print!(rt; " REQUEST {}", units::number_of(units)),
        Message::Release => print!(rt; " RELEASE"),
        Message::Grant => print!(rt; " GRANT"),
        Message::Withdraw => print!(rt; " WITHDRAW"),
        Message::Gone => print!(rt; " GONE"),
    }
}

// The lane's length and messages, and a call that has to do with it.
pub fn lane(rt: &impl Print, p2: Record, way: Way, len: u8, m: Message) -> io::Result<()> {
    let r = by_hand::with_lane(p2, way, 2, 1, by_hand::lane(len, m));
    print!(rt; "{way} lane of {len}")?;
    print_message(rt, m)?;
    let answer = match way {
        Way::Up => calls::up(r, 2, 1),
        Way::Down => calls::down(r, 2, 1),
    };
    print!(rt; " {way}(2,1)")?;
    script::answered(rt, answer)?;
    Ok(())
}

// A call that has to do with nothing that is out of range.
fn asked(rt: &impl Print, r: Record) -> io::Result<()> {
    script::call(rt, b")", r, b"request(1,2,1)")?;
    Ok(())
}

// Units granted to station 1, the length of the line, and the station and units of its entries.
pub fn arbiter(
    rt: &impl Print,
    p2: Record,
    granted: u8,
    len: u8,
    station: u8,
    units: u8,
) -> io::Result<()> {
    print!(rt; "arbiter({granted},{len},{station},{units}")?;
    let mut a = by_hand::waiting(len, station, units);
    a.granted[1] = by_hand::units(granted);
    asked(rt, by_hand::with_arbiter(p2, 2, a))
}

pub fn collecting(
    rt: &impl Print,
    p2: Record,
    quorum: u8,
    units: u8,
    member: u8,
) -> io::Result<()> {
    print!(rt; "collecting({quorum},{units},{member}")?;
    let phase = by_hand::collecting(quorum, units, member);
    asked(rt, by_hand::with_phase(p2, 2, phase))
}

pub fn holding(rt: &impl Print, p2: Record, quorum: u8, units: u8) -> io::Result<()> {
    print!(rt; "holding({quorum},{units}")?;
    let phase = by_hand::holding(quorum, units);
    script::call(rt, b")", by_hand::with_phase(p2, 2, phase), b"release(2)")?;
    Ok(())
}

// The numbers of stations, units and quorums, and what each quorum is.
pub fn sizes(
    rt: &impl Print,
    twelve: Record,
    n: u8,
    stock: u8,
    quorums: u8,
    set: u16,
) -> io::Result<()> {
    print!(rt; "sizes({n},{stock},{quorums},{set}")?;
    let mut r = twelve;
    r.n = n;
    r.stock = by_hand::units(stock);
    r.quorums = quorums;
    r.table = [set; quorum::MOST_QUORUMS];
    asked(rt, r)
}
