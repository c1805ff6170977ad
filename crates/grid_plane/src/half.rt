ghost use Rattle.std.specs.Prelude.{◌≡◌, IsSome, IfSome, ◌↔◌};
ghost use Rattle.plane_terms.specs.HalfPlane.{HalfPlane, IsHalfPlane, weak, turned};

use plane_terms::Op;
use std::marker::Model;

/// The greatest factor of x or y in a half-plane: the greatest difference of two coordinates.
pub const SLOPE: i64 = 8_388_608;

/// The greatest constant of a half-plane, in square grid units.
pub const CONSTANT: i64 = 70_368_744_177_664;

/// What the high part of a constant counts.
const STEP: u64 = 4_294_967_296;

/// The steps in the greatest constant.
const STEPS: i32 = 16_384;

/// An open or closed half-plane, or a line: `a*x + b*y + c` is above 0, at least 0, or 0.
///
/// Programs keep many of these, so one takes 16 bytes: c is kept as `high` steps of 2^32 and `low` more.
#[derive(Clone, Copy)]
pub struct Half {
    a: i32,
    b: i32,
    low: u32,
    high: i16,
    op: Op,
}

const _: () = prove!(size_of::<Half>() == 16);

impl Model for Half {
    ghost use Rattle.std.specs.Prelude.{◌^◌, ◌<◌};
    ghost use Rattle.plane_terms.specs.HalfPlane.{HalfPlane, IsHalfPlane};
    ghost use Rattle.grid_plane.specs.Constants.{constant_of, high_of, low_of, parts_back};

    ghost Value = { HalfPlane };

    ghost view = { λ h. record { a = h.a; b = h.b; c = constant_of h.high h.low; op = h.op } };

    ghost invariant = { λ h. (h.low < 2 ^ 32) × IsHalfPlane (record { a = h.a; b = h.b; c = constant_of h.high h.low; op = h.op }) };

    ghost inverse = { λ v. record { a = v.a; b = v.b; low = low_of v.c; high = high_of v.c; op = v.op } };

    ghost inverse_ok = { λ h keeps i. let parts = parts_back h.high h.low keeps.0 in
        record { a = h.a; b = h.b; low = parts.1 i; high = parts.0 i; op = h.op } };
}

impl Half {
    /// The half-plane of these numbers; `None` exactly where one is beyond its limit, or both `a` and `b` are 0.
    pub fn of(a: i64, b: i64, c: i64, op: Op) -> Option<Half>
        ensures made { IsSome result ↔ IsHalfPlane (record { a = a; b = b; c = c; op = op }) }
        ensures value { IfSome result (λ h. h ≡ record { a = a; b = b; c = c; op = op }) }
    {
        if a < -SLOPE || a > SLOPE || b < -SLOPE || b > SLOPE || c < -CONSTANT || c > CONSTANT {
            return None;
        }
        if a == 0 && b == 0 {
            return None;
        }
        Some(Half::packed(a, b, c, op))
    }

    /// The half-plane of these numbers.
    pub(crate) fn packed(a: i64, b: i64, c: i64, op: Op) -> Half
        requires { IsHalfPlane (record { a = a; b = b; c = c; op = op }) }
        ensures { result ≡ record { a = a; b = b; c = c; op = op } }
    {
        let raised = (c + CONSTANT) as u64;
        Half {
            a: a as i32,
            b: b as i32,
            low: (raised % STEP) as u32,
            high: ((raised / STEP) as i32 - STEPS) as i16,
            op,
        }
    }

    /// The factor of x.
    pub fn a(&self) -> i64
        ensures value { result ≡ self.now.a }
        ensures valid { IsHalfPlane self.now }
    {
        i64::from(self.a)
    }

    /// The factor of y.
    pub fn b(&self) -> i64
        ensures value { result ≡ self.now.b }
        ensures valid { IsHalfPlane self.now }
    {
        i64::from(self.b)
    }

    /// The constant.
    pub fn c(&self) -> i64
        ensures value { result ≡ self.now.c }
        ensures valid { IsHalfPlane self.now }
    {
        i64::from(self.high) * STEP as i64 + i64::from(self.low)
    }

    pub fn op(&self) -> Op
        ensures { result ≡ self.now.op }
    {
        self.op
    }

    /// The closed half-plane of an open one; the others as they are.
    pub fn weak(&self) -> Half
        ensures { result ≡ weak self.now }
    {
        let op = match self.op {
            Op::Over => Op::AtLeast,
            Op::AtLeast => Op::AtLeast,
            Op::Zero => Op::Zero,
        };
        Half {
            a: self.a,
            b: self.b,
            low: self.low,
            high: self.high,
            op,
        }
    }

    /// The same line, seen from its other side.
    pub fn turned(&self, op: Op) -> Half
        ensures { result ≡ turned self.now op }
    {
        Half::packed(-self.a(), -self.b(), -self.c(), op)
    }

    /// The same numbers with another test.
    pub fn with_op(&self, op: Op) -> Half
        ensures { result ≡ record self.now { op = op } }
    {
        Half {
            a: self.a,
            b: self.b,
            low: self.low,
            high: self.high,
            op,
        }
    }

    /// x and y change places.
    pub fn mirrored(&self) -> Half
        ensures { result ≡ record self.now { a = self.now.b; b = self.now.a } }
    {
        Half {
            a: self.b,
            b: self.a,
            low: self.low,
            high: self.high,
            op: self.op,
        }
    }
}
