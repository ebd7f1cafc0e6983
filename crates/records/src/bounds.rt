// What the parts of a record in range keep to.
ghost use Rattle.std.specs.Prelude.{◌≤◌};
ghost use Rattle.quorum.specs.Limits.{most_stations};

use units::Units;

// So many stations, for each of which an array has a place, and this stock.
#[derive(Clone, Copy)]
pub(crate) struct Bounds {
    pub stations: usize,
    pub stock: Units,
    ghost few: { stations ≤ most_stations },
}
