ghost use Rattle.rule_words.specs.declared.rule_kind.RuleKind.TheVariants as kind;

use crate::rule_body::RuleBody;
use grid_plane::NoMemory;
use rule_core::{Findings, RuleRow, View, Work};
use rule_loops::{found, gap_cells};
use rule_words::RuleKind;
use shape::Feature;
use std::alloc::Global;

/// Must Not Have Gaps: at each point of the boundary of a polygon of the side, the polygons of the side cover all that is near
/// enough, the outer perimeter included.
pub struct PolygonMustNotHaveGaps;

impl RuleBody for PolygonMustNotHaveGaps {
    ghost kind = { kind.PolygonMustNotHaveGaps };

    fn kind() -> RuleKind {
        RuleKind::PolygonMustNotHaveGaps
    }

    fn cut(
        alloc: Global,
        row: &RuleRow,
        subject: &Feature,
        view: &View<'_>,
        work: &mut Work,
    ) -> Result<Findings, NoMemory> {
        found(alloc, gap_cells(alloc, row.origin, subject, view, work)?)
    }
}
