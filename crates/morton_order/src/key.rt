//! The Morton key.

ghost use Rattle.std.specs.Prelude.{◌≡◌, ◌<◌, ◌≤◌, ◌*◌, ◌-◌, ◌^◌};
ghost use Rattle.morton_order.specs.Space.{IsLoc};
ghost use Rattle.morton_order.specs.Key.{key, on_finest as on_finest_of};

use crate::space::Loc;

/// A coordinate on the finest lattice, that of level 10.
fn on_finest(level: u32, coordinate: u32) -> u32
    requires level { level ≤ 10 }
    requires within { coordinate < 65536 * 2 ^ level }
    ensures value { result ≡ on_finest_of level coordinate }
    ensures bound { result < 2 ^ 26 }
{
    coordinate * 2u32.pow(10 - level)
}

/// The Morton key of a location: the bits of its coordinates on the finest lattice by turns, the lowest of x1 first.
///
/// Leaves are numbered by rising key.
pub fn key_of(at: &Loc) -> u128
    requires { IsLoc 3 at.now }
    ensures value { result ≡ key at.now }
    ensures bound { result < 2 ^ 78 }
{
    let x = on_finest(at.level, at.l1);
    let y = on_finest(at.level, at.l2);
    let z = on_finest(at.level, at.l3);
    let mut key: u128 = 0;
    for done in 0..26u32 {
        let bit = 25 - done;
        let digit = (x >> bit) % 2 + 2 * ((y >> bit) % 2) + 4 * ((z >> bit) % 2);
        key = 8 * key + u128::from(digit);
    }
    key
}
