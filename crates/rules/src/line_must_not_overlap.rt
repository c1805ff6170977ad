ghost use Rattle.rule_words.specs.declared.rule_kind.RuleKind.TheVariants as kind;

use crate::rule_body::RuleBody;
use crate::stretches::Stretches;
use grid_plane::NoMemory;
use rule_core::{Findings, RuleRow, View, Work};
use rule_loops::with_later;
use rule_words::RuleKind;
use shape::Feature;
use std::alloc::Global;

/// Must Not Overlap, for lines: no segment of a line of the side overlaps one of another line of the side. Of two such lines, the
/// one of the lower handle breaks it.
pub struct LineMustNotOverlap;

impl RuleBody for LineMustNotOverlap {
    ghost kind = { kind.LineMustNotOverlap };

    fn kind() -> RuleKind {
        RuleKind::LineMustNotOverlap
    }

    fn cut(
        alloc: Global,
        row: &RuleRow,
        subject: &Feature,
        view: &View<'_>,
        work: &mut Work,
    ) -> Result<Findings, NoMemory> {
        let stretches = Stretches { subject };
        with_later(alloc, &stretches, row.origin, subject, view, work)
    }
}
