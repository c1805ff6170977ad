ghost use Rattle.std.specs.Prelude.{◌≡◌, ◌<◌, ◌&&◌, IfSome, not, unwrap_or};
ghost use Rattle.topology_terms.specs.Feature as terms;
ghost use Rattle.topology_terms.specs.Feature.{no_side};
ghost use Rattle.topology_terms.specs.Causes.{same_side};
ghost use Rattle.topology_terms.specs.Broken.{judged};
ghost use Rattle.topology_terms.specs.Plans as plans;
ghost use Rattle.validation_laws.specs.Views as views;

use crate::ends::has_end_at;
use crate::side::Side;
use grid_plane::GridPoint;
use plane_terms::Kind;
use rule_words::RuleKind;
use shape::Feature;
use std::marker::Model;

/// What a rule in force speaks of: its kind, the side of its subjects, and its second side, where it takes one. `RuleRow::new`
/// makes one.
#[derive(Clone, Copy)]
pub struct RuleRow {
    pub kind: RuleKind,
    pub origin: Side,
    pub dest: Option<Side>,
}

impl Model for RuleRow {
    ghost use Rattle.std.specs.Prelude.{◌<◌, IfSome, unwrap_or};
    ghost use Rattle.topology_terms.specs.Feature.{no_side};
    ghost use Rattle.topology_terms.specs.Broken.{Row};
    ghost use Rattle.rule_core.specs.Seconds.{given, given_back};

    ghost Value = { Row };

    ghost view = { λ r. record { kind = r.kind; origin = r.origin; dest = unwrap_or r.dest no_side } };

    ghost invariant = { λ r. IfSome r.dest (λ s. 0 < s.class) };

    ghost inverse = { λ v. record { kind = v.kind; origin = v.origin; dest = given v.dest } };

    ghost inverse_ok = { λ r numbered i. record { kind = r.kind; origin = r.origin; dest = given_back r.dest numbered i } };
}

// Whether a line ends at the place, and so has a segment there.
fn ends_there(g: &Feature, place: GridPoint) -> bool
    ensures { result ≡ (plans.ends_there g.now place && plans.has_side_at g.now place) }
{
    match g.shape().kind() {
        Kind::Line => has_end_at(g.shape(), place),
        _ => false,
    }
}

impl RuleRow {
    /// The row of this kind and these sides. Classes have numbers from 1.
    pub fn new(kind: RuleKind, origin: Side, dest: Option<Side>) -> RuleRow
        requires { IfSome dest (λ s. 0 < s.class) }
        ensures { result ≡ record { kind = kind; origin = origin; dest = unwrap_or dest no_side } }
    {
        RuleRow { kind, origin, dest }
    }

    /// The second side; where the rule takes none, a side that nothing is on.
    pub fn dest_side(&self) -> Side
        ensures { result ≡ self.now.dest }
    {
        match self.dest {
            Some(side) => side,
            None => Side {
                class: 0,
                subtype: None,
            },
        }
    }

    /// Whether a second side is given.
    pub fn has_dest(&self) -> bool
        ensures { result ≡ not (same_side self.now.dest no_side) }
    {
        self.dest.is_some()
    }

    /// Whether the features of this class and subtype are subjects of the rule.
    pub fn judges(&self, class: u16, subtype: u8) -> bool
        ensures { (f : terms.Feature) → f.class ≡ class → f.subtype ≡ subtype → result ≡ judged self.now f }
    {
        self.origin.has(class, subtype)
            || (self.kind.judges_either() && self.dest_side().has(class, subtype))
    }

    /// Whether the rule asks of a line only what is at its ends.
    pub fn looks_at_ends(&self) -> bool
        ensures { result ≡ views.looks_at_ends self.now.kind }
    {
        match self.kind {
            RuleKind::LineMustNotHaveDangles => true,
            RuleKind::LineMustNotHavePseudoNodes => true,
            RuleKind::LineEndpointMustBeCoveredBy => true,
            _ => false,
        }
    }

    /// Whether the feature is one of those that a rule on ends counts at an end there: on its first side a line that ends there, or, if
    /// it asks for points at ends, on its second side a point there.
    pub fn counts_at(&self, g: &Feature, place: GridPoint) -> bool
        ensures { result ≡ views.counts_at self.now g.now place }
    {
        match self.kind {
            RuleKind::LineEndpointMustBeCoveredBy => {
                self.dest_side().holds(g) && g.shape().place() == place
            }
            _ => self.origin.holds(g) && ends_there(g, place),
        }
    }

    /// So many features that count at an end are enough for a rule on ends: what it finds there does not change with one more.
    pub fn enough(&self) -> usize
        ensures { result ≡ views.enough_of self.now.kind }
    {
        match self.kind {
            RuleKind::LineEndpointMustBeCoveredBy => 1,
            _ => 3,
        }
    }
}

/// A rule in force, under its number.
#[derive(Clone, Copy)]
pub struct InForce {
    pub number: u16,
    pub row: RuleRow,
}

impl Model for InForce {
    ghost use Rattle.topology_terms.specs.Project as terms;

    ghost Value = { terms.InForce };

    ghost view = { λ r. record { number = r.number; row = r.row } };

    ghost inverse = { λ v. record { number = v.number; row = v.row } };
}
