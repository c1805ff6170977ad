ghost use Rattle.std.specs.Prelude.{◌≡◌, pos, ◌+ℤ◌, ◌*ℤ◌, ◌<ℤ◌, ◌≤◌, ◌^◌, ◌∷◌, [], unsigned_abs};
ghost use Rattle.std.specs.Bool.{OnTrue};
ghost use Rattle.plane_terms.specs.Cell.{HasPoint};
ghost use Rattle.plane_terms.specs.HalfPlane.{x_over, x_under};

use crate::column::product;
use crate::coordinate::Coordinate;
use crate::heights;
use grid_plane::{Half, Op};

fn sum(left: &Coordinate, right: &Coordinate) -> i32
    ensures value { result ≡ left.now +ℤ right.now }
    ensures fits { unsigned_abs result ≤ 2 ^ 23 }
{
    left.value() + right.value()
}

fn twice(c: i64) -> i64
    requires { unsigned_abs c ≤ 2 ^ 46 }
    ensures value { result ≡ c *ℤ pos 2 }
    ensures fits { unsigned_abs result ≤ 2 ^ 47 }
{
    c * 2
}

fn total(a: i64, b: i64) -> i64
    requires a_fits { unsigned_abs a ≤ 2 ^ 46 }
    requires b_fits { unsigned_abs b ≤ 2 ^ 47 }
    ensures value { result ≡ a +ℤ b }
    ensures fits { unsigned_abs result ≤ 2 ^ 48 }
{
    a + b
}

/// Twice what the half-plane asks about at half this abscissa and at height 0.
fn base(half: &Half, x: i32) -> i64
    requires { unsigned_abs x ≤ 2 ^ 23 }
    ensures value { result ≡ half.now.a *ℤ x +ℤ half.now.c *ℤ pos 2 }
    ensures fits { unsigned_abs result ≤ 2 ^ 48 }
{
    total(heights::product(half.a(), x), twice(half.c()))
}

fn is_less(first: i128, second: i128) -> bool
    ensures { OnTrue result (first <ℤ second) }
{
    first < second
}

/// Whether the upper half-plane ends above the lower in the middle of the column, so that their slot has a point there.
pub(crate) fn is_open(left: &Coordinate, right: &Coordinate, over: &Half, under: &Half) -> bool
    requires { left.now <ℤ right.now }
    ensures { OnTrue result (HasPoint (x_over left.now ∷ x_under right.now ∷ over.now ∷ under.now ∷ [])) }
{
    if over.op() == Op::Zero || under.op() == Op::Zero {
        return false;
    }
    if over.b() <= 0 || under.b() >= 0 {
        return false;
    }
    let x = sum(left, right);
    is_less(
        product(base(over, x), under.b()),
        product(base(under, x), over.b()),
    )
}
