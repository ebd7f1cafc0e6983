// An arbiter forgets a station that withdraws: its entries are dropped from the line, and its grant.
ghost use Rattle.std.specs.Prelude.{◌≡◌, ℕ, ◌≤◌, ◌<◌};
ghost use Rattle.plain.specs.Arbiter.{arrived};
ghost use Rattle.plain.specs.Lanes.{line_places};
ghost use Rattle.plain.specs.declared.Message.TheVariants.{Withdraw};
ghost use Rattle.quorum.specs.Limits.{most_stations};
ghost use Rattle.records.specs.View.{arbiter_of};

use records::Arbiter;

// The arbiter when station s has withdrawn: every entry of it leaves the line, and the others stay in their order.
#[tactic(auto, using(crate::proofs::DroppingEntries::keeps_one, crate::proofs::DroppingEntries::drops_one, std::proofs::lemmas::Grind::common_steps))]
pub(crate) fn forget(a: Arbiter, s: usize) -> Arbiter
    requires { (s < most_stations) × (a.len ≤ line_places) }
    ensures { (n : ℕ) → s < n → arbiter_of n result ≡ arrived Withdraw s (arbiter_of n a) }
{
    let mut rest = a;
    rest.granted[s] = units::no_units();
    rest.len = 0;
    for e in &a.line[..a.len as usize] {
        if e.station as usize != s {
            rest.line[rest.len as usize] = *e;
            rest.len += 1;
        }
    }
    rest
}
