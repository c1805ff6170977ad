ghost use Rattle.rule_words.specs.declared.rule_kind.RuleKind.TheVariants as kind;

use crate::but_ends::ButEnds;
use crate::rule_body::RuleBody;
use grid_plane::NoMemory;
use rule_core::{Findings, RuleRow, View, Work};
use rule_loops::with_later;
use rule_words::RuleKind;
use shape::Feature;
use std::alloc::Global;

/// Must Not Intersect Or Touch Interior: two lines of the side have a point in common only where both have an end. Of two lines
/// that have another, the one of the lower handle breaks it.
pub struct LineMustNotIntersectOrTouchInterior;

impl RuleBody for LineMustNotIntersectOrTouchInterior {
    ghost kind = { kind.LineMustNotIntersectOrTouchInterior };

    fn kind() -> RuleKind {
        RuleKind::LineMustNotIntersectOrTouchInterior
    }

    fn cut(
        alloc: Global,
        row: &RuleRow,
        subject: &Feature,
        view: &View<'_>,
        work: &mut Work,
    ) -> Result<Findings, NoMemory> {
        with_later(alloc, &ButEnds { subject }, row.origin, subject, view, work)
    }
}
