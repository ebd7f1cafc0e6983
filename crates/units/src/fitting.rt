// Whether units fit beside those that are granted.
ghost use Rattle.std.specs.Prelude.{◌≡◌, min};
ghost use Rattle.units.specs.Granted.{granted_of};
ghost use Rattle.units.specs.Units.{fits as fits_of};

use crate::{STATIONS, Units};

// no `min`: the program that `program-has` of `claim` is of has no function of the library
pub(crate) fn smaller(a: usize, b: usize) -> usize
    ensures { result ≡ min a b }
{
    if a < b { a } else { b }
}

// Beside those that are granted to the stations below n; there is no station past the array's end.
pub fn fits(n: usize, stock: Units, granted: [Units; STATIONS], u: Units) -> bool
    ensures { result ≡ fits_of n stock (granted_of n granted) u }
{
    let stations = smaller(n, STATIONS);
    let mut sum = u.positions as usize;
    // no chain: its `sum` learns of no unit that it is at most 255
    for units in &granted[..stations] {
        sum += units.positions as usize;
    }
    sum <= stock.positions as usize
}
