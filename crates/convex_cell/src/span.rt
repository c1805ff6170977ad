ghost use Rattle.std.specs.Prelude.{◌≡◌, ℕ, ℤ, pos, neg_ℤ, ◌<◌, ◌≤◌, ◌^◌, ◌≤ℤ◌, ◌<ℤ◌, ◌+ℤ◌, ◌*ℤ◌, unsigned_abs, All};
ghost use Rattle.plane_terms.specs.Point.{Point, InReach};
ghost use Rattle.plane_terms.specs.HalfPlane.{Holds, value_at};
ghost use Rattle.cell_laws.specs.Bounds.{Above};
ghost use Rattle.convex_cell.specs.Span.{After, Before, IsSpan, InSpan};

use grid_plane::{Half, Op};

/// The first and the last step that numbers may have: a whole number v has the step 2v, and what lies between v and v + 1 the
/// step 2v + 1.
#[derive(Clone, Copy)]
pub struct Span {
    pub from: i64,
    pub to: i64,
}

/// The greatest whole number that is at most `k / m`.
fn floor_of(k: i64, m: i64) -> i64
    requires over { pos 0 <ℤ m }
    requires k_fits { unsigned_abs k ≤ 2 ^ 47 }
    ensures below { (result *ℤ m) ≤ℤ k }
    ensures fits { unsigned_abs result ≤ 2 ^ 47 }
{
    if m == 1 {
        return k;
    }
    k.div_euclid(m)
}

fn step_at(whole: i64) -> i64
    requires { unsigned_abs whole ≤ 2 ^ 47 }
    ensures value { result ≡ pos 2 *ℤ whole }
    ensures fits { unsigned_abs result ≤ 2 ^ 49 }
{
    2 * whole
}

fn step_over(whole: i64) -> i64
    requires { unsigned_abs whole ≤ 2 ^ 47 }
    ensures value { result ≡ pos 2 *ℤ whole +ℤ pos 1 }
    ensures fits { unsigned_abs result ≤ 2 ^ 49 }
{
    2 * whole + 1
}

fn negated(v: i64) -> i64
    requires { unsigned_abs v ≤ 2 ^ 50 }
    ensures { result ≡ neg_ℤ v }
{
    -v
}

/// The first step of the numbers z at which `b*z + high` is above 0, or at least 0, or one before it.
fn first_step(high: i64, b: i64, strict: bool) -> i64
    requires rising { pos 0 <ℤ b }
    requires high_fits { unsigned_abs high ≤ 2 ^ 47 }
    ensures fits { unsigned_abs result ≤ 2 ^ 49 }
    ensures sound { (z : ℤ) → (w : ℕ) → 0 < w → Above strict (b *ℤ z +ℤ high *ℤ pos w) → After result z w }
{
    let whole = floor_of(negated(high), b);
    if strict {
        step_over(whole)
    } else {
        step_at(whole)
    }
}

fn from_step(span: Span, first: i64) -> Span
    requires span { IsSpan span }
    requires first_fits { unsigned_abs first ≤ 2 ^ 49 }
    ensures fits { IsSpan result }
    ensures sound { (z : ℤ) → (w : ℕ) → InSpan span z w → After first z w → InSpan result z w }
{
    if span.from < first {
        return Span {
            from: first,
            to: span.to,
        };
    }
    span
}

fn to_step(span: Span, last: i64) -> Span
    requires span { IsSpan span }
    requires last_fits { unsigned_abs last ≤ 2 ^ 49 }
    ensures fits { IsSpan result }
    ensures sound { (z : ℤ) → (w : ℕ) → InSpan span z w → Before last z w → InSpan result z w }
{
    if last < span.to {
        return Span {
            from: span.from,
            to: last,
        };
    }
    span
}

/// What is left where `b*z + high` is above 0, or at least 0.
fn cut(span: Span, b: i64, high: i64, strict: bool) -> Span
    requires span { IsSpan span }
    requires b_fits { unsigned_abs b ≤ 2 ^ 23 }
    requires high_fits { unsigned_abs high ≤ 2 ^ 47 }
    ensures fits { IsSpan result }
    ensures sound { (z : ℤ) → (w : ℕ) → 0 < w → InSpan span z w → Above strict (b *ℤ z +ℤ high *ℤ pos w) → InSpan result z w }
{
    if b > 0 {
        return from_step(span, first_step(high, b, strict));
    }
    if b < 0 {
        return to_step(span, negated(first_step(high, negated(b), strict)));
    }
    span
}

fn cut_flat(span: Span, half: &Half, strict: bool) -> Span
    requires { IsSpan span }
    ensures fits { IsSpan result }
    ensures sound { (z : ℤ) → (w : ℕ) → 0 < w → InSpan span z w → Above strict (half.now.a *ℤ z +ℤ half.now.c *ℤ pos w) → InSpan result z w }
{
    cut(span, half.a(), half.c(), strict)
}

pub(crate) fn sum_at(a: i64, x: i64, c: i64) -> i64
    requires a_fits { unsigned_abs a ≤ 2 ^ 23 }
    requires x_fits { unsigned_abs x ≤ 2 ^ 23 }
    requires c_fits { unsigned_abs c ≤ 2 ^ 46 }
    ensures value { result ≡ a *ℤ x +ℤ c }
    ensures fits { unsigned_abs result ≤ 2 ^ 47 }
{
    a * x + c
}

/// The greatest value of `a*x + c` from left to right.
pub(crate) fn highest(a: i64, c: i64, left: i64, right: i64) -> i64
    requires a_fits { unsigned_abs a ≤ 2 ^ 23 }
    requires c_fits { unsigned_abs c ≤ 2 ^ 46 }
    requires left_fits { unsigned_abs left ≤ 2 ^ 23 }
    requires right_fits { unsigned_abs right ≤ 2 ^ 23 }
    ensures fits { unsigned_abs result ≤ 2 ^ 47 }
    ensures sound { (x : ℤ) → (w : ℕ) → (left *ℤ pos w) ≤ℤ x → x ≤ℤ (right *ℤ pos w) → (a *ℤ x +ℤ c *ℤ pos w) ≤ℤ (result *ℤ pos w) }
{
    if a < 0 {
        return sum_at(a, left, c);
    }
    sum_at(a, right, c)
}

fn cut_slanted(span: Span, half: &Half, left: i64, right: i64, strict: bool) -> Span
    requires span { IsSpan span }
    requires left_fits { unsigned_abs left ≤ 2 ^ 23 }
    requires right_fits { unsigned_abs right ≤ 2 ^ 23 }
    ensures fits { IsSpan result }
    ensures sound { (p : Point) → (left *ℤ pos p.w) ≤ℤ p.x → p.x ≤ℤ (right *ℤ pos p.w) → InSpan span p.y p.w → Above strict (value_at half.now p) → InSpan result p.y p.w }
{
    cut(
        span,
        half.b(),
        highest(half.a(), half.c(), left, right),
        strict,
    )
}

fn cut_x(span: Span, half: &Half) -> Span
    requires { IsSpan span }
    ensures fits { IsSpan result }
    ensures sound { (p : Point) → InSpan span p.x p.w → Holds half.now p → InSpan result p.x p.w }
{
    if half.b() != 0 {
        return span;
    }
    match half.op() {
        Op::Over => cut_flat(span, half, true),
        Op::AtLeast => cut_flat(span, half, false),
        Op::Zero => cut_flat(
            cut_flat(span, half, false),
            &half.turned(Op::AtLeast),
            false,
        ),
    }
}

fn cut_y(span: Span, half: &Half, left: i64, right: i64) -> Span
    requires span { IsSpan span }
    requires left_fits { unsigned_abs left ≤ 2 ^ 23 }
    requires right_fits { unsigned_abs right ≤ 2 ^ 23 }
    ensures fits { IsSpan result }
    ensures sound { (p : Point) → (left *ℤ pos p.w) ≤ℤ p.x → p.x ≤ℤ (right *ℤ pos p.w) → InSpan span p.y p.w → Holds half.now p → InSpan result p.y p.w }
{
    if half.b() == 0 {
        return span;
    }
    match half.op() {
        Op::Over => cut_slanted(span, half, left, right, true),
        Op::AtLeast => cut_slanted(span, half, left, right, false),
        Op::Zero => cut_slanted(
            cut_slanted(span, half, left, right, false),
            &half.turned(Op::AtLeast),
            left,
            right,
            false,
        ),
    }
}

impl Span {
    /// It says nothing.
    pub fn open() -> Span
        ensures fits { IsSpan result }
        ensures sound { (z : ℤ) → (w : ℕ) → InSpan result z w }
    {
        Span {
            from: -1_125_899_906_842_624,
            to: 1_125_899_906_842_624,
        }
    }
}

/// What lies strictly between two whole numbers.
pub(crate) fn span_between(left: i32, right: i32) -> Span
    requires left { InReach left }
    requires right { InReach right }
    ensures fits { IsSpan result }
    ensures sound { (z : ℤ) → (w : ℕ) → 0 < w → (left *ℤ pos w) <ℤ z → z <ℤ (right *ℤ pos w) → InSpan result z w }
{
    let after = cut(Span::open(), 1, negated(i64::from(left)), true);
    cut(after, -1, i64::from(right), true)
}

/// A whole number alone.
pub(crate) fn span_at(v: i32) -> Span
    requires { InReach v }
    ensures fits { IsSpan result }
    ensures sound { (z : ℤ) → (w : ℕ) → 0 < w → z ≡ v *ℤ pos w → InSpan result z w }
{
    let from = cut(Span::open(), 1, negated(i64::from(v)), false);
    cut(from, -1, i64::from(v), false)
}

/// What the half-planes without y leave of x.
pub fn x_span(halves: &[Half]) -> Span
    ensures fits { IsSpan result }
    ensures sound { (p : Point) → All (λ h. Holds h p) halves.now → InSpan result p.x p.w }
{
    let mut span = Span::open();
    for half in halves {
        span = cut_x(span, half);
    }
    span
}

/// What the half-planes leave of y, where x goes from left to right.
pub fn y_span(halves: &[Half], left: i64, right: i64) -> Span
    requires left_fits { unsigned_abs left ≤ 2 ^ 23 }
    requires right_fits { unsigned_abs right ≤ 2 ^ 23 }
    ensures fits { IsSpan result }
    ensures sound { (p : Point) → (left *ℤ pos p.w) ≤ℤ p.x → p.x ≤ℤ (right *ℤ pos p.w) → All (λ h. Holds h p) halves.now → InSpan result p.y p.w }
{
    let mut span = Span::open();
    for half in halves {
        span = cut_y(span, half, left, right);
    }
    span
}
