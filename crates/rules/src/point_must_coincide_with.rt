ghost use Rattle.rule_words.specs.declared.rule_kind.RuleKind.TheVariants as kind;

use crate::rule_body::RuleBody;
use grid_plane::NoMemory;
use rule_core::{Findings, RuleRow, View, Work};
use rule_loops::{NoneThere, PointThere, bad_place, found};
use rule_words::RuleKind;
use shape::Feature;
use std::alloc::Global;

/// Must Coincide With: at the place of each point of the side is some point of the second side.
pub struct PointMustCoincideWith;

impl RuleBody for PointMustCoincideWith {
    ghost kind = { kind.PointMustCoincideWith };

    fn kind() -> RuleKind {
        RuleKind::PointMustCoincideWith
    }

    fn cut(
        alloc: Global,
        row: &RuleRow,
        subject: &Feature,
        view: &View<'_>,
        _work: &mut Work,
    ) -> Result<Findings, NoMemory> {
        found(
            alloc,
            bad_place::<NoneThere<PointThere>>(alloc, row.dest_side(), subject, view)?,
        )
    }
}
