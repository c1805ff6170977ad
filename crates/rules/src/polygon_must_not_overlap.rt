ghost use Rattle.rule_words.specs.declared.rule_kind.RuleKind.TheVariants as kind;

use crate::overlap::Overlap;
use crate::rule_body::RuleBody;
use grid_plane::NoMemory;
use rule_core::{Findings, RuleRow, View, Work};
use rule_loops::with_later;
use rule_words::RuleKind;
use shape::Feature;
use std::alloc::Global;

/// Must Not Overlap: no two polygons of the side have an inside point in common. Of two that have, the one of the lower
/// handle breaks it.
pub struct PolygonMustNotOverlap;

impl RuleBody for PolygonMustNotOverlap {
    ghost kind = { kind.PolygonMustNotOverlap };

    fn kind() -> RuleKind {
        RuleKind::PolygonMustNotOverlap
    }

    fn cut(
        alloc: Global,
        row: &RuleRow,
        subject: &Feature,
        view: &View<'_>,
        work: &mut Work,
    ) -> Result<Findings, NoMemory> {
        with_later(alloc, &Overlap { subject }, row.origin, subject, view, work)
    }
}
