// The table of a record whose stations, stock and table pass 1 to 4.
ghost use Rattle.std.specs.Prelude.{◌≡◌, ◌≢◌, MatchOption};
ghost use Rattle.quorum.specs.Limits.{broken_limit as broken_limit_rule};
ghost use Rattle.records.specs.View.{table_of};
ghost use Rattle.units.specs.Units.{asked_with as asked_with_rule};

use crate::Record;

#[tactic(auto, using(crate::proofs::Ranging::too_many_quorums, crate::proofs::Ranging::is_refused, crate::proofs::Ranging::is_done, lists::proofs::Slices::front_cut, std::proofs::lemmas::Grind::common_steps))]
pub(crate) fn table_kept(r: &Record) -> Option<&[u16]>
    ensures { MatchOption result (broken_limit_rule r.now.n (asked_with_rule r.now.stock) (table_of r.now) ≢ 0) (λ table. (table.now ≡ table_of r.now) × (broken_limit_rule r.now.n (asked_with_rule r.now.stock) (table_of r.now) ≡ 0)) }
{
    let quorums = r.quorums as usize;
    if quorum::MOST_QUORUMS < quorums {
        return None;
    }
    let table = &r.table[..quorums];
    let k = units::asked_with(r.stock);
    match quorum::limits::kept(r.n as usize, k, table) {
        Ok(()) => Some(table),
        Err(_) => None,
    }
}
