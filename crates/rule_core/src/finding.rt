use convex_cell::Cells;
use std::marker::Model;
use std::num::NonZeroU32;
use topology_terms::Extent;

/// What a rule finds for a subject and a partner: the cells in which it is broken, or that the subject breaks it as a whole.
#[derive(Drop)]
pub struct Finding {
    /// The handle of the partner, where there is one.
    pub other: Option<NonZeroU32>,
    /// Whether the whole subject breaks the rule, or it is broken in cells.
    pub extent: Extent,
    /// Where the rule is broken; none where the whole subject breaks it.
    pub cells: Cells,
}

impl Model for Finding {
    ghost use Rattle.std.specs.Option.{option_map_or};
    ghost use Rattle.std.specs.NonZero.{non_zero_u32_get};
    ghost use Rattle.topology_terms.specs.Extents.{is_whole};
    ghost use Rattle.topology_terms.specs.Meaning as terms;

    ghost Value = { terms.Finding };

    ghost view = { λ x. record { other = option_map_or non_zero_u32_get x.other 0; whole = is_whole x.extent; cells = x.cells } };
}
