ghost use Rattle.rule_words.specs.declared.rule_kind.RuleKind.TheVariants as kind;

use crate::rule_body::RuleBody;
use grid_plane::NoMemory;
use rule_core::{Findings, RuleRow, View, Work};
use rule_loops::{found, own_stretches};
use rule_words::RuleKind;
use shape::Feature;
use std::alloc::Global;

/// Must Not Self-Overlap: no two segments of a line overlap.
pub struct LineMustNotSelfOverlap;

impl RuleBody for LineMustNotSelfOverlap {
    ghost kind = { kind.LineMustNotSelfOverlap };

    fn kind() -> RuleKind {
        RuleKind::LineMustNotSelfOverlap
    }

    fn cut(
        alloc: Global,
        _row: &RuleRow,
        subject: &Feature,
        _view: &View<'_>,
        _work: &mut Work,
    ) -> Result<Findings, NoMemory> {
        found(alloc, own_stretches(alloc, subject)?)
    }
}
