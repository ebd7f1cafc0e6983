// Units: what a station asks for, what an arbiter grants, what the stock has. A second stock is a second field.
#![tactic(auto)]

ghost use Rattle.std.specs.Prelude.{◌≡◌};
ghost use Rattle.units.specs.Units.{no_units as no_units_rule, request_in as request_in_rule, grant_in as grant_in_rule, asked_with as asked_with_rule, units_of as units_of_rule, stock_of as stock_of_rule, number_of, storable};

mod fitting;

pub use fitting::fits;

// An arbiter has granted units to so many stations at most.
pub const STATIONS: usize = quorum::MOST_STATIONS;

#[repr(C)]
#[derive(Clone, Copy, Debug, PartialEq, Eq)]
pub struct Units {
    pub positions: u8,
}

// What follows are functions, no methods and no conversions by From: there are two rules from a number (`units_of`, `stock_of`) and two to one
// (`number_of`, `asked_with`), and each name is a word of the definitions, under which the crates above call and cite it.
pub fn no_units() -> Units
    ensures { result ≡ no_units_rule }
{
    Units { positions: 0 }
}

// The units that a caller's number stands for, who may give any: none where no stock has as many.
#[tactic(auto, unfolding(crate::specs::Units::storable, crate::specs::Units::units_of))]
pub fn units_of(number: usize) -> Units
    ensures { result ≡ storable units_of_rule number }
{
    if quorum::MOST_UNITS < number {
        return no_units();
    }
    Units {
        positions: number as u8,
    }
}

// The stock that a caller's number stands for, likewise. No twin: with a second stock it is another rule (`stock_of` of the definitions).
#[tactic(auto, unfolding(crate::specs::Units::storable, crate::specs::Units::units_of, crate::specs::Units::stock_of))]
pub fn stock_of(number: usize) -> Units
    ensures { result ≡ storable stock_of_rule number }
{
    units_of(number)
}

// The number that stands for units.
#[tactic(auto, unfolding(crate::specs::Units::number_of))]
pub fn number_of(u: Units) -> u8
    ensures { result ≡ number_of u }
{
    u.positions
}

// The k that a table is asked with.
#[tactic(auto, unfolding(crate::specs::Units::asked_with))]
pub fn asked_with(stock: Units) -> usize
    ensures { result ≡ asked_with_rule stock }
{
    stock.positions as usize
}

// Whether units are in range where they were asked for.
#[tactic(auto, unfolding(crate::specs::Units::request_in))]
pub fn request_in(stock: Units, u: Units) -> bool
    ensures { result ≡ request_in_rule stock u }
{
    quorum::limits::up_to(stock.positions as usize, u.positions as usize)
}

// Whether units are in range where they are granted.
#[tactic(auto, unfolding(crate::specs::Units::grant_in))]
pub fn grant_in(stock: Units, u: Units) -> bool
    ensures { result ≡ grant_in_rule stock u }
{
    u.positions <= stock.positions
}
