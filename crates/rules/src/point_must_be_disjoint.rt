ghost use Rattle.rule_words.specs.declared.rule_kind.RuleKind.TheVariants as kind;

use crate::rule_body::RuleBody;
use crate::same_place::SamePlace;
use grid_plane::NoMemory;
use rule_core::{Findings, RuleRow, View, Work};
use rule_loops::with_later;
use rule_words::RuleKind;
use shape::Feature;
use std::alloc::Global;

/// Must Be Disjoint: no two points of the side are at one place. Of two that are, the one of the lower handle breaks it.
pub struct PointMustBeDisjoint;

impl RuleBody for PointMustBeDisjoint {
    ghost kind = { kind.PointMustBeDisjoint };

    fn kind() -> RuleKind {
        RuleKind::PointMustBeDisjoint
    }

    fn cut(
        alloc: Global,
        row: &RuleRow,
        subject: &Feature,
        view: &View<'_>,
        work: &mut Work,
    ) -> Result<Findings, NoMemory> {
        let place = SamePlace {
            place: subject.shape().place(),
        };
        with_later(alloc, &place, row.origin, subject, view, work)
    }
}
