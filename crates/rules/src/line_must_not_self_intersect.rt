ghost use Rattle.rule_words.specs.declared.rule_kind.RuleKind.TheVariants as kind;

use crate::rule_body::RuleBody;
use grid_plane::NoMemory;
use rule_core::{Findings, RuleRow, View, Work};
use rule_loops::{found, own_crossings};
use rule_words::RuleKind;
use shape::Feature;
use std::alloc::Global;

/// Must Not Self-Intersect: two segments of a line have no point in common that is no end of the line, unless one comes
/// after the other in its part and they meet in their one common vertex.
pub struct LineMustNotSelfIntersect;

impl RuleBody for LineMustNotSelfIntersect {
    ghost kind = { kind.LineMustNotSelfIntersect };

    fn kind() -> RuleKind {
        RuleKind::LineMustNotSelfIntersect
    }

    fn cut(
        alloc: Global,
        _row: &RuleRow,
        subject: &Feature,
        _view: &View<'_>,
        _work: &mut Work,
    ) -> Result<Findings, NoMemory> {
        found(alloc, own_crossings(alloc, subject)?)
    }
}
