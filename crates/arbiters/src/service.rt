// The line of an arbiter is served, strictly from its first entry on.
ghost use Rattle.std.specs.Prelude.{◌≡◌, ℕ, ◌+◌, ◌≤◌, length, take, drop};
ghost use Rattle.lists.specs.Cut.{cut};
ghost use Rattle.plain.specs.Arbiter.{serve, served};
ghost use Rattle.plain.specs.Lanes.{line_places};
ghost use Rattle.quorum.specs.Limits.{most_stations};
ghost use Rattle.records.specs.View.{no_entry, arbiter_of};
ghost use Rattle.units.specs.Granted.{granted_of};
ghost use Rattle.arbiters.specs.Inner.Ready.{Named, Serves};

use crate::Delivery;
use plain::Entry;
use records::{Arbiter, LINE_PLACES, STATIONS};
use units::Units;

// The first entries of the line that fit, one after the other, are granted: so many.
// n and stock are no struct: `deliver` promises for any two, and `units::fits` takes them apart.
#[tactic(auto, using(crate::proofs::ServingLine::serve_more, crate::proofs::ServingLine::serve_stop, crate::proofs::ServingLine::serve_end, std::proofs::lemmas::Grind::common_steps))]
pub(crate) fn grant(
    granted: &mut [Units; STATIONS],
    line: &[Entry],
    n: usize,
    stock: Units,
) -> usize
    requires few { n ≤ most_stations }
    requires named { Named n (length line.now) line.now }
    ensures within { result ≤ length line.now }
    ensures grants { take result line.now ≡ (serve n stock (granted_of n granted.old) line.now).grants }
    ensures arbiter { record { granted = granted_of n granted.new; line = drop result line.now } ≡ (serve n stock (granted_of n granted.old) line.now).arbiter }
{
    for (i, e) in line.iter().enumerate() {
        if !units::fits(n, stock, *granted, e.units) {
            return i;
        }
        granted[e.station as usize] = e.units;
    }
    line.len()
}

// The line without its first entries.
#[tactic(auto, using(lists::proofs::Cuts::cut_moved, std::proofs::lemmas::Grind::common_steps))]
pub(crate) fn shifted(line: &[Entry; LINE_PLACES], by: usize) -> [Entry; LINE_PLACES]
    requires { by ≤ line_places }
    ensures { (m : ℕ) → m + by ≤ line_places → cut no_entry m result ≡ drop by (cut no_entry (m + by) line.now) }
{
    let mut out = *line;
    for (i, e) in line[by..].iter().enumerate() {
        out[i] = *e;
    }
    out
}

// The arbiter after its line was served, and the entries that were granted.
#[tactic(auto, using(lists::proofs::Slices::fronts, records::proofs::Good::line_of, std::proofs::lemmas::Grind::common_steps), unfolding(records::specs::View::arbiter_of))]
pub(crate) fn serve(a: Arbiter, n: usize, stock: Units) -> Delivery
    requires { Serves n a }
    ensures arbiter { arbiter_of n result.arbiter ≡ (served n stock (arbiter_of n a)).arbiter }
    ensures grants { cut no_entry result.grants result.line ≡ (served n stock (arbiter_of n a)).grants }
{
    let len = a.len as usize;
    let mut granted = a.granted;
    let grants = grant(&mut granted, &a.line[..len], n, stock);
    let rest = shifted(&a.line, grants);
    let line = a.line;
    Delivery {
        arbiter: Arbiter {
            granted,
            len: (len - grants) as u8,
            line: rest,
        },
        grants,
        line,
    }
}
