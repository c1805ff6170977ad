ghost use Rattle.topology_terms.specs.Feature.{place};
ghost use Rattle.topology_terms.specs.Plans.{is_round};
ghost use Rattle.rule_words.specs.declared.rule_kind.RuleKind.TheVariants as kind;

use crate::rule_body::RuleBody;
use grid_plane::NoMemory;
use rule_core::{Findings, RuleRow, View, Work};
use rule_loops::{Test, contains, whole_without};
use rule_words::RuleKind;
use shape::Feature;
use std::alloc::Global;
use std::marker::Model;

/// Contains Point: inside each polygon of the side is some point of the second side. One on its boundary is not inside.
/// A polygon without one is marked as a whole.
pub struct PolygonContainsPoint;

/// A polygon that a point may be inside of.
#[derive(Drop)]
struct Container<'a> {
    polygon: &'a Feature,
}

impl<'a> Model for Container<'a> {
    ghost use Rattle.topology_terms.specs.Feature.{Feature};

    ghost Value = { Feature };

    ghost view = { λ c. c.polygon.now };
}

impl<'a> Test for Container<'a> {
    ghost test = { λ f g. is_round f (place g) };

    fn passes(
        &self,
        _alloc: Global,
        partner: &Feature,
        _work: &mut Work,
    ) -> Result<bool, NoMemory> {
        Ok(contains(self.polygon, partner))
    }
}

impl RuleBody for PolygonContainsPoint {
    ghost kind = { kind.PolygonContainsPoint };

    fn kind() -> RuleKind {
        RuleKind::PolygonContainsPoint
    }

    fn cut(
        alloc: Global,
        row: &RuleRow,
        subject: &Feature,
        view: &View<'_>,
        work: &mut Work,
    ) -> Result<Findings, NoMemory> {
        let container = Container { polygon: subject };
        whole_without(alloc, &container, row.dest_side(), view, work)
    }
}
