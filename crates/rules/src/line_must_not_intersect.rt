ghost use Rattle.rule_words.specs.declared.rule_kind.RuleKind.TheVariants as kind;

use crate::inner::Inner;
use crate::rule_body::RuleBody;
use grid_plane::NoMemory;
use rule_core::{Findings, RuleRow, View, Work};
use rule_loops::with_later;
use rule_words::RuleKind;
use shape::Feature;
use std::alloc::Global;

/// Must Not Intersect: two lines of the side have a point in common only where an end of one of them is. Of two lines that have
/// another, the one of the lower handle breaks it.
pub struct LineMustNotIntersect;

impl RuleBody for LineMustNotIntersect {
    ghost kind = { kind.LineMustNotIntersect };

    fn kind() -> RuleKind {
        RuleKind::LineMustNotIntersect
    }

    fn cut(
        alloc: Global,
        row: &RuleRow,
        subject: &Feature,
        view: &View<'_>,
        work: &mut Work,
    ) -> Result<Findings, NoMemory> {
        with_later(alloc, &Inner { subject }, row.origin, subject, view, work)
    }
}
