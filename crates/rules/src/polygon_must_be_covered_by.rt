ghost use Rattle.std.specs.Prelude.{◌≡◌};
ghost use Rattle.topology_terms.specs.Tests as tests;
ghost use Rattle.rule_words.specs.declared.rule_kind.RuleKind.TheVariants as kind;

use crate::rule_body::RuleBody;
use convex_cell::Cells;
use grid_plane::NoMemory;
use rule_core::{Findings, RuleRow, View, Work};
use rule_loops::{Test, closed_cells, covers, whole_without};
use rule_words::RuleKind;
use shape::Feature;
use std::alloc::Global;
use std::marker::Model;

/// Must Be Covered By: some single polygon of the second side holds, inside or on its boundary, each point inside a polygon of
/// the class or on its boundary. A polygon that none covers is marked as a whole.
pub struct PolygonMustBeCoveredBy;

/// A polygon, with the cells of its inside and of its boundary, which a partner may cover.
#[derive(Drop)]
struct ClosedPolygon<'a> {
    polygon: &'a Feature,
    cells: Cells,
    ghost closed: { cells ≡ tests.closed_cells polygon.now },
}

impl<'a> Model for ClosedPolygon<'a> {
    ghost use Rattle.topology_terms.specs.Feature.{Feature};

    ghost Value = { Feature };

    ghost view = { λ p. p.polygon.now };
}

impl<'a> Test for ClosedPolygon<'a> {
    ghost test = { tests.covers };

    fn passes(&self, alloc: Global, partner: &Feature, work: &mut Work) -> Result<bool, NoMemory> {
        covers(alloc, partner, self.polygon, &self.cells, work)
    }
}

impl RuleBody for PolygonMustBeCoveredBy {
    ghost kind = { kind.PolygonMustBeCoveredBy };

    fn kind() -> RuleKind {
        RuleKind::PolygonMustBeCoveredBy
    }

    fn cut(
        alloc: Global,
        row: &RuleRow,
        subject: &Feature,
        view: &View<'_>,
        work: &mut Work,
    ) -> Result<Findings, NoMemory> {
        let polygon = ClosedPolygon {
            polygon: subject,
            cells: closed_cells(alloc, subject, work)?,
        };
        whole_without(alloc, &polygon, row.dest_side(), view, work)
    }
}
