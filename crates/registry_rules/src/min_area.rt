ghost use Rattle.std.specs.Prelude.{◌≡◌, ◌≤◌, ◌^◌, ◌-ℤ◌, ◌*ℤ◌, unsigned_abs, codes};
ghost use Rattle.registry_rules.specs.Areas.{doubled_of, doubled_area_of, is_below, is_small};

use grid_plane::{Name, NoMemory, Seg};
use outside_rules::{OutsideRule, find};
use plane_terms::Kind;
use rule_core::View;
use shape::Feature;

/// The doubled area of a polygon is not below a least number: the absolute value of the sum of `a.x * b.y - a.y * b.x` over its segments
/// from a to b. Where holes run against their shells, that is twice the area.
#[derive(Drop)]
pub struct MinArea {
    least: u64,
    asked: u64,
}

impl MinArea {
    /// The rule of this least number; it was never asked.
    pub fn new(least: u64) -> MinArea
        ensures least { result.least ≡ least }
        ensures asked { result.asked ≡ 0 }
    {
        MinArea { least, asked: 0 }
    }
}

// `a*b - c*d`
fn minor(a: i64, b: i64, c: i64, d: i64) -> i64
    requires a_fits { unsigned_abs a ≤ 2 ^ 22 }
    requires b_fits { unsigned_abs b ≤ 2 ^ 22 }
    requires c_fits { unsigned_abs c ≤ 2 ^ 22 }
    requires d_fits { unsigned_abs d ≤ 2 ^ 22 }
    ensures value { result ≡ a *ℤ b -ℤ c *ℤ d }
    ensures short { unsigned_abs result ≤ 2 ^ 46 }
{
    a * b - c * d
}

// Twice the area between the origin and the segment, above 0 where it runs to the left of it.
fn doubled(s: &Seg) -> i64
    ensures value { result ≡ doubled_of s.now }
    ensures short { unsigned_abs result ≤ 2 ^ 46 }
{
    let (a, b) = (s.a(), s.b());
    minor(
        i64::from(a.x()),
        i64::from(b.y()),
        i64::from(a.y()),
        i64::from(b.x()),
    )
}

fn word() -> Name
    ensures { result ≡ codes "min_doubled_area" }
{
    Name::of(b"min_doubled_area").unwrap()
}

// Whether the absolute value of the sum is below the least number.
fn is_below(least: u64, sum: i128) -> bool
    ensures { result ≡ is_below least sum }
{
    let least = i128::from(least);
    -least < sum && sum < least
}

fn doubled_area(segs: &[Seg]) -> i128
    ensures { result ≡ doubled_area_of segs.now }
{
    let mut sum = 0;
    for s in segs {
        sum += i128::from(doubled(s));
    }
    sum
}

fn is_small(least: u64, f: &Feature) -> bool
    ensures { result ≡ is_small least f.now }
{
    is_below(least, doubled_area(f.shape().segs()))
}

impl OutsideRule for MinArea {
    ghost use Rattle.registry_rules.specs.Areas.{min_area};

    ghost seen = { λ s. min_area s.least };

    ghost count = { λ s. s.asked };

    fn word(&self) -> Name {
        word()
    }

    fn takes(&self) -> Kind {
        Kind::Polygon
    }

    fn asked(&self) -> u64 {
        self.asked
    }

    fn judge(&mut self, view: &View<'_>, subject: u32) -> Result<bool, NoMemory> {
        self.asked = self.asked.saturating_add(1);
        match find(view, subject) {
            Some(f) => Ok(is_small(self.least, f)),
            None => Ok(false),
        }
    }
}
