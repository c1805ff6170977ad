ghost use Rattle.std.specs.Prelude.{◌≡◌, ℤ, pos, ◌-ℤ◌, ◌*ℤ◌, ◌≤◌, ◌^◌, ◌↔◌, IsTrue, IsNone, IfSome, unsigned_abs};
ghost use Rattle.std.specs.Int.{int_signum};
ghost use Rattle.plane_terms.specs.Point.{InReach};
ghost use Rattle.plane_terms.specs.Segment.{IsGridSegment, OnSegment, SharePoint, Overlap, comes_before, segment_between, first_of, second_of, box_of};
ghost use Rattle.grid_plane.specs.Rectangles.{HoldsAt};
ghost use Rattle.plane_terms.specs.Share.{turn, one_side, one_zero, is_beside, is_parallel, has_end_on, share_of, share_on_line, CrossOnce, TouchOnce};
ghost use Rattle.plane_terms.specs.ShapeFaults.{AreBad};
ghost use Rattle.grid_plane.specs.Cuts.{is_cut};
ghost use Rattle.plane_terms.specs.declared.share.Share.TheVariants.{Nothing, Along, Cross, Touch};

use crate::point::GridPoint;
use crate::rect::Rect;
use plane_terms::Share;
use std::marker::Model;

/// A segment between two different places of the grid. LineString segments in OGC 06-103r4.
#[derive(Clone, Copy)]
pub struct Seg {
    lo: GridPoint,
    hi: GridPoint,
    turned: bool,
}

impl Model for Seg {
    ghost use Rattle.plane_terms.specs.Segment.{Segment, IsGridSegment};

    ghost Value = { Segment };

    ghost view = { λ s. record { lo = s.lo; hi = s.hi; turned = s.turned } };

    ghost invariant = { λ s. IsGridSegment (record { lo = s.lo; hi = s.hi; turned = s.turned }) };

    ghost inverse = { λ s. record { lo = s.lo; hi = s.hi; turned = s.turned } };
}

/// In order of x, then y.
fn comes_before(p: &GridPoint, q: &GridPoint) -> bool
    ensures { result ≡ comes_before p.now q.now }
{
    p.x() < q.x() || (p.x() == q.x() && p.y() < q.y())
}

fn difference(a: i32, b: i32) -> i64
    requires a_in { InReach a }
    requires b_in { InReach b }
    ensures value { result ≡ a -ℤ b }
    ensures fits { unsigned_abs result ≤ 2 ^ 23 }
{
    i64::from(a) - i64::from(b)
}

/// `a*b - c*d`
fn minor(a: i64, b: i64, c: i64, d: i64) -> i64
    requires a_fits { unsigned_abs a ≤ 2 ^ 23 }
    requires b_fits { unsigned_abs b ≤ 2 ^ 23 }
    requires c_fits { unsigned_abs c ≤ 2 ^ 23 }
    requires d_fits { unsigned_abs d ≤ 2 ^ 23 }
    ensures value { result ≡ a *ℤ b -ℤ c *ℤ d }
    ensures short { unsigned_abs b ≤ 2 ^ 22 → unsigned_abs d ≤ 2 ^ 22 → unsigned_abs result ≤ 2 ^ 46 }
{
    a * b - c * d
}

fn is_one_side(a: i64, b: i64) -> bool
    ensures { result ≡ one_side a b }
{
    (0 < a && 0 < b) || (a < 0 && b < 0)
}

fn is_one_zero(a: i64, b: i64) -> bool
    ensures { result ≡ one_zero a b }
{
    a == 0 || b == 0
}

// Whether it is more than a touch.
fn is_cut(share: Share) -> bool
    ensures { result ≡ is_cut share }
{
    match share {
        Share::Nothing => false,
        Share::Along => true,
        Share::Cross => true,
        Share::Touch => false,
    }
}

fn segment(lo: GridPoint, hi: GridPoint, turned: bool) -> Seg
    requires { IsTrue (comes_before lo hi) }
    ensures value { result ≡ record { lo = lo; hi = hi; turned = turned } }
    ensures valid { IsGridSegment result }
{
    prove!(lo.x() < hi.x() || (lo.x() == hi.x() && lo.y() < hi.y()));
    Seg { lo, hi, turned }
}

impl Seg {
    /// The segment drawn from `a` to `b`; `None` exactly where they are one place.
    pub fn of(a: GridPoint, b: GridPoint) -> Option<Seg>
        ensures refused { IsNone result ↔ (a ≡ b) }
        ensures value { IfSome result (λ s. s ≡ segment_between a b) }
        ensures ends { IfSome result (λ s. (first_of s ≡ a) × (second_of s ≡ b)) }
        ensures valid { IfSome result IsGridSegment }
    {
        if comes_before(&a, &b) {
            return Some(segment(a, b, false));
        }
        if comes_before(&b, &a) {
            return Some(segment(b, a, true));
        }
        None
    }

    /// Its first end in order of x, then y.
    pub fn lo(&self) -> GridPoint
        ensures value { result ≡ self.now.lo }
        ensures valid { IsGridSegment self.now }
    {
        self.lo
    }

    /// Its last end in order of x, then y.
    pub fn hi(&self) -> GridPoint
        ensures value { result ≡ self.now.hi }
        ensures valid { IsGridSegment self.now }
    {
        self.hi
    }

    /// The end that it was drawn from.
    pub fn a(&self) -> GridPoint
        ensures { result ≡ first_of self.now }
    {
        if self.turned { self.hi } else { self.lo }
    }

    /// The end that it was drawn to.
    pub fn b(&self) -> GridPoint
        ensures { result ≡ second_of self.now }
    {
        if self.turned { self.lo } else { self.hi }
    }

    /// The least rectangle that holds it.
    pub fn env(&self) -> Rect
        ensures value { result ≡ box_of self.now }
        ensures valid { IsGridSegment self.now }
    {
        let lo = self.lo();
        let hi = self.hi();
        let (left, low) = (lo.x(), lo.y());
        let (right, high) = (hi.x(), hi.y());
        Rect {
            x0: left,
            y0: low.min(high),
            x1: right,
            y1: low.max(high),
        }
    }

    /// How far `hi` is right of `lo`.
    pub(crate) fn across(&self) -> i64
        ensures value { result ≡ self.now.hi.x -ℤ self.now.lo.x }
        ensures fits { unsigned_abs result ≤ 2 ^ 23 }
        ensures valid { IsGridSegment self.now }
    {
        difference(self.hi.x(), self.lo.x())
    }

    /// How far `hi` is above `lo`.
    pub(crate) fn rise(&self) -> i64
        ensures value { result ≡ self.now.hi.y -ℤ self.now.lo.y }
        ensures fits { unsigned_abs result ≤ 2 ^ 23 }
    {
        difference(self.hi.y(), self.lo.y())
    }

    /// The constant of its line.
    pub(crate) fn constant(&self) -> i64
        ensures value { result ≡ (self.now.hi.y -ℤ self.now.lo.y) *ℤ self.now.lo.x -ℤ (self.now.hi.x -ℤ self.now.lo.x) *ℤ self.now.lo.y }
        ensures fits { unsigned_abs result ≤ 2 ^ 46 }
    {
        let lo = self.lo();
        minor(
            self.rise(),
            i64::from(lo.x()),
            self.across(),
            i64::from(lo.y()),
        )
    }

    // In line, so that the tests below take each turn once.
    #[inline(always)]
    fn turn(&self, p: &GridPoint) -> i64
        ensures { result ≡ turn self.now p.now }
    {
        let lo = self.lo();
        let right = difference(p.x(), lo.x());
        let up = difference(p.y(), lo.y());
        minor(self.across(), up, self.rise(), right)
    }

    /// On which side of the line through the segment the place is, seen from `lo` to `hi`:
    /// 1 to the left, -1 to the right, 0 on it.
    pub fn side(&self, p: GridPoint) -> i8
        ensures { result ≡ int_signum (turn self.now p) }
    {
        let turn = self.turn(&p);
        if turn < 0 {
            return -1;
        }
        if turn > 0 {
            return 1;
        }
        0
    }

    /// Whether the place is on the segment, its ends included.
    pub fn holds(&self, p: GridPoint) -> bool
        ensures { IsTrue result ↔ HoldsAt p (OnSegment self.now) }
    {
        if comes_before(&p, &self.lo()) {
            return false;
        }
        if comes_before(&self.hi(), &p) {
            return false;
        }
        self.turn(&p) == 0
    }

    fn share_on_line(&self, other: &Seg) -> Share
        ensures { result ≡ share_on_line self.now other.now }
    {
        if comes_before(&self.hi(), &other.lo()) || comes_before(&other.hi(), &self.lo()) {
            return Share::Nothing;
        }
        if comes_before(&other.lo(), &self.hi()) && comes_before(&self.lo(), &other.hi()) {
            return Share::Along;
        }
        Share::Touch
    }

    /// It lies strictly on one side of the line.
    #[inline(always)]
    fn is_beside(&self, line: &Seg) -> bool
        ensures { result ≡ is_beside self.now line.now }
    {
        is_one_side(line.turn(&self.lo()), line.turn(&self.hi()))
    }

    /// Both its ends are equally far from the line.
    #[inline(always)]
    fn is_parallel(&self, line: &Seg) -> bool
        ensures { result ≡ is_parallel self.now line.now }
    {
        line.turn(&self.lo()) == line.turn(&self.hi())
    }

    /// One of its ends is on the line.
    #[inline(always)]
    fn has_end_on(&self, line: &Seg) -> bool
        ensures { result ≡ has_end_on self.now line.now }
    {
        is_one_zero(line.turn(&self.lo()), line.turn(&self.hi()))
    }

    #[tactic(auto, unfolding(plane_terms::specs::Share::share_of))]
    fn decide(&self, other: &Seg) -> Share
        ensures value { result ≡ share_of self.now other.now }
    {
        if self.is_beside(other) || other.is_beside(self) {
            return Share::Nothing;
        }
        if self.is_parallel(other) {
            return self.share_on_line(other);
        }
        if self.has_end_on(other) || other.has_end_on(self) {
            return Share::Touch;
        }
        Share::Cross
    }

    // The ends of one most often tell: neighbours of a ring touch.
    fn decide_cut(&self, other: &Seg) -> bool
        ensures { result ≡ is_cut (share_of self.now other.now) }
    {
        if self.is_parallel(other) {
            return is_cut(self.decide(other));
        }
        if self.is_beside(other) {
            return false;
        }
        if self.has_end_on(other) {
            return false;
        }
        if other.is_beside(self) {
            return false;
        }
        !other.has_end_on(self)
    }

    /// Whether they cross or run along each other.
    pub fn cuts(&self, other: &Seg) -> bool
        ensures { IsTrue result ↔ AreBad self.now other.now }
    {
        let _ = &self.lo;
        let _ = &other.lo;
        self.decide_cut(other)
    }

    /// What two segments have in common, by the number of points that are on both: the points of the plane,
    /// and not those of the grid alone.
    pub fn shares(&self, other: &Seg) -> Share
        ensures value { result ≡ share_of self.now other.now }
        ensures nothing { (result ≡ Nothing) ↔ ¬ (SharePoint self.now other.now) }
        ensures along { (result ≡ Along) ↔ Overlap self.now other.now }
        ensures cross { (result ≡ Cross) ↔ CrossOnce self.now other.now }
        ensures touch { (result ≡ Touch) ↔ TouchOnce self.now other.now }
    {
        if !self.env().meets(&other.env()) {
            return Share::Nothing;
        }
        self.decide(other)
    }
}
