// One table through the check, and the outages that it survives.
ghost use Rattle.std.specs.Prelude.{◌<◌};

use crate::counts;
use quorum::{Accepted, Rejected};
use refusals::Refusal;
use std::io;

// The bytes of the scratch before a check: none of them is 0.
const BEFORE: u8 = 7;

// More bytes than the check asks for, and one too few.
const LONG: usize = quorum::SCRATCH_BYTES + 904;

const SHORT: usize = quorum::SCRATCH_BYTES - 1;

fn print_judged(rt: &impl Print, refusal: u8, width: usize, even: bool) -> io::Result<()> {
    print!(rt; " table={refusal} width={width} even={}", even as u8)
}

fn print_family(rt: &impl Print, width: usize, family: &[u8]) -> io::Result<()> {
    print!(rt; " family=")?;
    for (i, number) in family.iter().take(width).enumerate() {
        let gap = if i == 0 { "" } else { " " };
        print!(rt; "{gap}{number}")?;
    }
    Ok(())
}

pub(crate) fn print_answer(rt: &impl Print, checked: Result<Accepted, Rejected>) -> io::Result<()> {
    match checked {
        Ok(Accepted { width, even }) => print_judged(rt, 0, width, even),
        Err(Rejected::Refused(refusal)) => print_judged(rt, refusal.number(), 0, false),
        Err(Rejected::Nested { width }) => {
            print_judged(rt, Refusal::Nested.number(), width, false)
        }
        Err(
            Rejected::NoCommonMember {
                width,
                even,
                family,
            },
        ) => {
            print_judged(rt, Refusal::NoCommonMember.number(), width, even)?;
            print_family(rt, width, &family)
        }
    }
}

// Checks the table on so many bytes of scratch and prints the example's name and the answer, then how many bytes of the scratch are zeros
// and how many are as they were.
fn check_on<const BYTES: usize>(
    rt: &impl Print,
    name: &str,
    n: usize,
    k: usize,
    quorums: &[u16],
) -> io::Result<()>
    requires { BYTES < 65536 }
{
    let mut scratch = [BEFORE; BYTES];
    let checked = quorum::check(n, k, quorums, &mut scratch);
    print!(rt; "{name}")?;
    print_answer(rt, checked)?;
    let zeros = scratch.iter().filter(|byte| **byte == 0).count();
    let kept = scratch.iter().filter(|byte| **byte == BEFORE).count();
    println!(rt; " zeros={zeros} kept={kept}")
}

// On more scratch than the check asks for. Not one with `check_short`: it prints the line of the outages besides. n, k and the quorums stay three, as the
// check takes them.
pub(crate) fn check(
    rt: &impl Print,
    name: &str,
    n: usize,
    k: usize,
    quorums: &[u16],
) -> io::Result<()> {
    check_on::<LONG>(rt, name, n, k, quorums)?;
    counts::print_line(rt, n, k, quorums)?;
    println!(rt; "")
}

// On one byte too few.
pub(crate) fn check_short(
    rt: &impl Print,
    name: &str,
    n: usize,
    k: usize,
    quorums: &[u16],
) -> io::Result<()> {
    check_on::<SHORT>(rt, name, n, k, quorums)
}
