ghost use Rattle.rule_words.specs.declared.rule_kind.RuleKind.TheVariants as kind;

use crate::rule_body::RuleBody;
use crate::stretches::Stretches;
use grid_plane::NoMemory;
use rule_core::{Findings, RuleRow, View, Work};
use rule_loops::with_side;
use rule_words::RuleKind;
use shape::Feature;
use std::alloc::Global;

/// Must Not Overlap With, for lines: no segment of a line of the side overlaps one of a line of the second side.
pub struct LineMustNotOverlapWith;

impl RuleBody for LineMustNotOverlapWith {
    ghost kind = { kind.LineMustNotOverlapWith };

    fn kind() -> RuleKind {
        RuleKind::LineMustNotOverlapWith
    }

    fn cut(
        alloc: Global,
        row: &RuleRow,
        subject: &Feature,
        view: &View<'_>,
        work: &mut Work,
    ) -> Result<Findings, NoMemory> {
        with_side(alloc, &Stretches { subject }, row.dest_side(), view, work)
    }
}
