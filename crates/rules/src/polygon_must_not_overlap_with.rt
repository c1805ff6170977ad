ghost use Rattle.rule_words.specs.declared.rule_kind.RuleKind.TheVariants as kind;

use crate::overlap::Overlap;
use crate::rule_body::RuleBody;
use grid_plane::NoMemory;
use rule_core::{Findings, RuleRow, View, Work};
use rule_loops::with_side;
use rule_words::RuleKind;
use shape::Feature;
use std::alloc::Global;

/// Must Not Overlap With: no polygon of the side has an inside point in common with one of the second side.
pub struct PolygonMustNotOverlapWith;

impl RuleBody for PolygonMustNotOverlapWith {
    ghost kind = { kind.PolygonMustNotOverlapWith };

    fn kind() -> RuleKind {
        RuleKind::PolygonMustNotOverlapWith
    }

    fn cut(
        alloc: Global,
        row: &RuleRow,
        subject: &Feature,
        view: &View<'_>,
        work: &mut Work,
    ) -> Result<Findings, NoMemory> {
        with_side(alloc, &Overlap { subject }, row.dest_side(), view, work)
    }
}
