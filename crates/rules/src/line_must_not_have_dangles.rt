ghost use Rattle.rule_words.specs.declared.rule_kind.RuleKind.TheVariants as kind;

use crate::rule_body::RuleBody;
use grid_plane::NoMemory;
use rule_core::{Findings, RuleRow, View, Work};
use rule_loops::{Dangle, bad_ends, found};
use rule_words::RuleKind;
use shape::Feature;
use std::alloc::Global;

/// Must Not Have Dangles: at each end of a line of the side, another segment of a line of the side is too, be it its own.
/// The end of a part that is closed does not dangle.
pub struct LineMustNotHaveDangles;

impl RuleBody for LineMustNotHaveDangles {
    ghost kind = { kind.LineMustNotHaveDangles };

    fn kind() -> RuleKind {
        RuleKind::LineMustNotHaveDangles
    }

    fn cut(
        alloc: Global,
        row: &RuleRow,
        subject: &Feature,
        view: &View<'_>,
        _work: &mut Work,
    ) -> Result<Findings, NoMemory> {
        found(alloc, bad_ends::<Dangle>(alloc, row.origin, subject, view)?)
    }
}
