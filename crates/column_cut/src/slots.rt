ghost use Rattle.std.specs.Prelude.{◌≡◌, ◌++◌, ◌∷◌, [], None, OnOk, map};
ghost use Rattle.plane_terms.specs.Segment.{right_of};
ghost use Rattle.plane_terms.specs.Columns.{over, slots};
ghost use Rattle.column_cut.specs.Parity.{is_even};
ghost use Rattle.column_cut.specs.Pieces.{all_of, slot_cell};
ghost use Rattle.column_cut.specs.Ranks.{segment_of};

use crate::parity::Parity;
use crate::ranked::Ranked;
use grid_plane::{Half, NoMemory, Seg, left_of, right_of};

/// What lies between two neighbours of a column: over the one and under the other. The lowest slot has nothing below it, and
/// the highest nothing above it.
#[derive(Clone, Copy)]
pub(crate) struct Slot {
    pub(crate) over: Option<Half>,
    pub(crate) under: Option<Half>,
}

fn half_over(below: &Option<Seg>) -> Option<Half>
    ensures { all_of result ≡ over below.now }
{
    match below {
        Some(segment) => Some(left_of(segment)),
        None => None,
    }
}

fn push_slot(
    slots: &mut Vec<Slot>,
    below: &Option<Seg>,
    under: Option<Half>,
) -> Result<(), NoMemory>
    ensures { OnOk result (map slot_cell slots.new.items ≡ map slot_cell slots.old.items ++ (over below.now ++ all_of under) ∷ []) }
{
    let over = half_over(below);
    slots.push(Slot { over, under })?;
    Ok(())
}

fn push_between(slots: &mut Vec<Slot>, below: &Option<Seg>, above: &Seg) -> Result<(), NoMemory>
    ensures { OnOk result (map slot_cell slots.new.items ≡ map slot_cell slots.old.items ++ (over below.now ++ right_of above.now ∷ []) ∷ []) }
{
    push_slot(slots, below, Some(right_of(above)))
}

fn push_top(slots: &mut Vec<Slot>, below: &Option<Seg>) -> Result<(), NoMemory>
    ensures { OnOk result (map slot_cell slots.new.items ≡ map slot_cell slots.old.items ++ over below.now ∷ []) }
{
    push_slot(slots, below, None)
}

/// Leaves in the list what lies between two neighbours of a column, every other one from below.
pub(crate) fn find_slots(
    found: &mut Vec<Slot>,
    parity: Parity,
    column: &[Ranked],
) -> Result<(), NoMemory>
    ensures { OnOk result (map slot_cell found.new.items ≡ slots (is_even parity) None (map segment_of column.now)) }
{
    found.clear();
    let mut below = None;
    let mut take = parity.is_even();
    for ranked in column {
        if take {
            push_between(found, &below, &ranked.segment)?;
        }
        below = Some(ranked.segment);
        take = !take;
    }
    if take {
        push_top(found, &below)?;
    }
    Ok(())
}
