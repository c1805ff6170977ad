ghost use Rattle.std.specs.Prelude.{◌≡◌, ℕ, ℤ, pos, neg_ℤ, ◌<◌, ◌≤◌, ◌^◌, ◌<ℤ◌, ◌+ℤ◌, ◌*ℤ◌, ◌↔◌, IsTrue, IfSome, unsigned_abs};
ghost use Rattle.std.specs.Bool.{OnTrue, OnFalse};
ghost use Rattle.plane_terms.specs.HalfPlane.{Says};
ghost use Rattle.cell_laws.specs.Bounds.{Above, Allows, either};
ghost use Rattle.convex_cell.specs.Range.{AllowsLimit, IsLimit, IsRange, InRange};

use grid_plane::Op;

/// A bound on t: `m*t + k` is above 0, or at least 0.
#[derive(Clone, Copy)]
pub struct Limit {
    pub m: i128,
    pub k: i128,
    pub strict: bool,
}

/// The bounds on t that are known, the upper one as a bound on -t.
#[derive(Clone, Copy)]
pub struct Range {
    pub low: Option<Limit>,
    pub high: Option<Limit>,
    pub none: bool,
}

fn product(k: i128, m: i128) -> i128
    requires k_fits { unsigned_abs k ≤ 2 ^ 70 }
    requires m_fits { unsigned_abs m ≤ 2 ^ 47 }
    ensures value { result ≡ k *ℤ m }
    ensures fits { unsigned_abs result ≤ 2 ^ 117 }
{
    k * m
}

fn is_above(v: i128, strict: bool) -> bool
    ensures { IsTrue result ↔ Above strict v }
{
    if strict { v > 0 } else { v >= 0 }
}

fn is_compatible(low: Limit, high: Limit) -> bool
    requires low_fits { IsLimit low }
    requires high_fits { IsLimit high }
    ensures { IsTrue result ↔ Above (either low.strict high.strict) (low.k *ℤ high.m +ℤ high.k *ℤ low.m) }
{
    let room = product(low.k, high.m) + product(high.k, low.m);
    if low.strict {
        room > 0
    } else {
        is_above(room, high.strict)
    }
}

pub fn tighter(old: Limit, new: Limit) -> Limit
    requires old_fits { IsLimit old }
    requires new_fits { IsLimit new }
    ensures fits { IsLimit result }
    ensures both { (t : ℤ) → (w : ℕ) → 0 < w → (AllowsLimit t w result ↔ (AllowsLimit t w old × AllowsLimit t w new)) }
{
    let first = product(old.k, new.m);
    let second = product(new.k, old.m);
    if first < second {
        return old;
    }
    if second < first {
        return new;
    }
    if old.strict { old } else { new }
}

fn tightened(old: Option<Limit>, new: Limit) -> Limit
    requires old_fits { IfSome old IsLimit }
    requires new_fits { IsLimit new }
    ensures fits { IsLimit result }
    ensures both { (t : ℤ) → (w : ℕ) → 0 < w → (AllowsLimit t w result ↔ (IfSome old (AllowsLimit t w) × AllowsLimit t w new)) }
{
    match old {
        Some(old) => tighter(old, new),
        None => new,
    }
}

impl Range {
    pub fn all() -> Range
        ensures fits { IsRange result }
        ensures all { (t : ℤ) → (w : ℕ) → InRange result t w }
    {
        Range {
            low: None,
            high: None,
            none: false,
        }
    }

    pub fn cut(&mut self, m: i128, k: i128, strict: bool)
        requires fits { IsRange self.old }
        requires m_fits { unsigned_abs m ≤ 2 ^ 47 }
        requires k_fits { unsigned_abs k ≤ 2 ^ 70 }
        ensures fits { IsRange self.new }
        ensures both { (t : ℤ) → (w : ℕ) → 0 < w → (InRange self.new t w ↔ (InRange self.old t w × Allows m k strict t w)) }
    {
        if m > 0 {
            self.low = Some(tightened(self.low, Limit { m, k, strict }));
            return;
        }
        if m < 0 {
            self.high = Some(tightened(self.high, Limit { m: -m, k, strict }));
            return;
        }
        if is_above(k, strict) {
            return;
        }
        self.none = true;
    }

    /// Leaves where `m*t + k` is as the test asks. A line cuts on both sides.
    pub(crate) fn cut_to(&mut self, op: Op, m: i128, k: i128)
        requires fits { IsRange self.old }
        requires m_fits { unsigned_abs m ≤ 2 ^ 47 }
        requires k_fits { unsigned_abs k ≤ 2 ^ 70 }
        ensures fits { IsRange self.new }
        ensures both { (t : ℤ) → (w : ℕ) → 0 < w → (InRange self.new t w ↔ (InRange self.old t w × Says op (m *ℤ t +ℤ k *ℤ pos w))) }
    {
        match op {
            Op::Over => self.cut(m, k, true),
            Op::AtLeast => self.cut(m, k, false),
            Op::Zero => {
                self.cut(m, k, false);
                self.cut(-m, -k, false);
            }
        }
    }

    pub fn is_none(&self) -> bool
        requires { IsRange self.now }
        ensures none { OnTrue result ((t : ℤ) → (w : ℕ) → 0 < w → ¬ (InRange self.now t w)) }
        ensures some { OnFalse result ((t : ℤ) × (w : ℕ) × (0 < w) × InRange self.now t w) }
    {
        if self.none {
            return true;
        }
        let Some(low) = self.low else {
            return false;
        };
        let Some(high) = self.high else {
            return false;
        };
        !is_compatible(low, high)
    }
}
