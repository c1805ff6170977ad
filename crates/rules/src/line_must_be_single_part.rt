ghost use Rattle.rule_words.specs.declared.rule_kind.RuleKind.TheVariants as kind;

use crate::rule_body::RuleBody;
use grid_plane::NoMemory;
use rule_core::{Findings, RuleRow, View, Work};
use rule_loops::whole_finding;
use rule_words::RuleKind;
use shape::Feature;
use std::alloc::Global;

/// Must Be Single Part: a line of the side has one part. A line of more is marked as a whole.
pub struct LineMustBeSinglePart;

impl RuleBody for LineMustBeSinglePart {
    ghost kind = { kind.LineMustBeSinglePart };

    fn kind() -> RuleKind {
        RuleKind::LineMustBeSinglePart
    }

    fn cut(
        alloc: Global,
        _row: &RuleRow,
        subject: &Feature,
        _view: &View<'_>,
        _work: &mut Work,
    ) -> Result<Findings, NoMemory> {
        whole_finding(alloc, subject.shape().part_count() > 1)
    }
}
