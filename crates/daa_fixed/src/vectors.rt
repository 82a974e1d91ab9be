//! Horizontal vectors and their exact products.

ghost use Rattle.std.specs.Prelude.{◌≡◌};
ghost use Rattle.daa_fixed.specs.Flat.{dot_of, cross_of, IsShort};

use crate::Flat;

/// The dot product, exact for components below 2^60 in size.
pub fn dot(x: &Flat, y: &Flat) -> i128
    requires x { IsShort x.now }
    requires y { IsShort y.now }
    ensures { result ≡ dot_of x.now y.now }
{
    (x.east as i128) * (y.east as i128) + (x.north as i128) * (y.north as i128)
}

/// The cross product, `x` before `y`: east by north less north by east. It is exact for components
/// below 2^60 in size.
pub fn cross(x: &Flat, y: &Flat) -> i128
    requires x { IsShort x.now }
    requires y { IsShort y.now }
    ensures { result ≡ cross_of x.now y.now }
{
    (x.east as i128) * (y.north as i128) - (x.north as i128) * (y.east as i128)
}

/// The square of the length, exact for components below 2^60 in size.
pub fn square(x: &Flat) -> i128
    requires { IsShort x.now }
    ensures { result ≡ dot_of x.now x.now }
{
    dot(x, x)
}
