// A table within the limits 1 to 4, and what 6 and 7 say of it.
ghost use Rattle.std.specs.Prelude.{◌≡◌, ◌&&◌, ◌+◌, ◌≤◌, leb, length, IfOk};
ghost use Rattle.refusals.specs.Numbers.{refusal_of};
ghost use Rattle.quorum.specs.Limits.{most_stations, most_units, most_quorums, broken_limit};

use crate::limits;
use refusals::Refusal;

#[derive(Clone, Copy)]
pub(crate) struct Table<'a> {
    pub(crate) stations: usize,
    pub(crate) stock: usize,
    pub(crate) quorums: &'a [u16],
    ghost kept: { broken_limit stations stock quorums.now ≡ 0 },
    ghost some_stations: { 1 ≤ stations },
    ghost few_stations: { stations ≤ most_stations },
    ghost small_stock: { stock ≤ most_units },
    ghost some_quorums: { 1 ≤ length quorums.now },
    ghost few_quorums: { length quorums.now ≤ most_quorums },
}

impl<'a> Table<'a> {
    // The first limit that is broken refuses the table.
    pub(crate) fn within_limits(
        stations: usize,
        stock: usize,
        quorums: &'a [u16],
    ) -> Result<Table<'a>, Refusal>
        ensures limits { refusal_of result ≡ broken_limit stations stock quorums.now }
        ensures table { IfOk result (λ table. (table.stations ≡ stations) × (table.stock ≡ stock) × (table.quorums.now ≡ quorums.now)) }
    {
        limits::kept(stations, stock, quorums)?;
        Ok(Table {
            stations,
            stock,
            quorums,
        })
    }

    // Whether a table of this width lacks a common member at its stock.
    pub(crate) fn lacks_common(&self, width: usize) -> bool
        ensures { result ≡ (leb 2 width && leb width (self.now.stock + 1)) }
    {
        2 <= width && width <= self.stock + 1
    }
}
