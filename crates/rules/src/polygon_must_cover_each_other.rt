ghost use Rattle.rule_words.specs.declared.rule_kind.RuleKind.TheVariants as kind;

use crate::other_side::other_side;
use crate::rule_body::RuleBody;
use grid_plane::NoMemory;
use rule_core::{Findings, RuleRow, View, Work};
use rule_loops::{area_left, found};
use rule_words::RuleKind;
use shape::Feature;
use std::alloc::Global;

/// Must Cover Each Other: each inside point of a polygon of either side is inside or on the boundary of some polygon of the
/// other one.
pub struct PolygonMustCoverEachOther;

impl RuleBody for PolygonMustCoverEachOther {
    ghost kind = { kind.PolygonMustCoverEachOther };

    fn kind() -> RuleKind {
        RuleKind::PolygonMustCoverEachOther
    }

    fn cut(
        alloc: Global,
        row: &RuleRow,
        subject: &Feature,
        view: &View<'_>,
        work: &mut Work,
    ) -> Result<Findings, NoMemory> {
        let side = other_side(row, subject);
        found(alloc, area_left(alloc, side, subject, view, work)?)
    }
}
