ghost use Rattle.rule_words.specs.declared.rule_kind.RuleKind.TheVariants as kind;

use crate::rule_body::RuleBody;
use grid_plane::NoMemory;
use rule_core::{Findings, RuleRow, View, Work};
use rule_loops::{PseudoNode, bad_ends, found};
use rule_words::RuleKind;
use shape::Feature;
use std::alloc::Global;

/// Must Not Have Pseudo Nodes: at no end of a line of the side just two ends of lines of the side meet, with no other
/// segment there. The end of a closed part that meets nothing else is a pseudo node.
pub struct LineMustNotHavePseudoNodes;

impl RuleBody for LineMustNotHavePseudoNodes {
    ghost kind = { kind.LineMustNotHavePseudoNodes };

    fn kind() -> RuleKind {
        RuleKind::LineMustNotHavePseudoNodes
    }

    fn cut(
        alloc: Global,
        row: &RuleRow,
        subject: &Feature,
        view: &View<'_>,
        _work: &mut Work,
    ) -> Result<Findings, NoMemory> {
        found(
            alloc,
            bad_ends::<PseudoNode>(alloc, row.origin, subject, view)?,
        )
    }
}
