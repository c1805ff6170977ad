ghost use Rattle.std.specs.Prelude.{◌≡◌, ◌<◌, List, [], ◌∷◌, length, true, slice_get, Some, IfOk, IfErr};
ghost use Rattle.plane_terms.specs.Shape.{ends_of, IsShape};
ghost use Rattle.plane_terms.specs.ShapeFaults.{IsFlawless};
ghost use Rattle.plane_terms.specs.declared.kind.Kind.TheVariants as kind;
ghost use Rattle.topology_terms.specs.Feature as terms;
ghost use Rattle.topology_terms.specs.Feature.{feature_at};
ghost use Rattle.topology_terms.specs.Broken.{Row};
ghost use Rattle.topology_terms.specs.Project.{rule_at};
ghost use Rattle.topology_terms.specs.Together.{of_side};
ghost use Rattle.fix_terms.specs.declared.edit.Edit.TheVariants.{Put};
ghost use Rattle.fix_terms.specs.Plans.{IsAfter, IsPossible};
ghost use Rattle.fix_terms.specs.Snap.{snapped, snapped_shape, dangles_at, may_snap, HasSnapped};
ghost use Rattle.fix_tools.specs.Snap.{IsSnapped, IsSnapFault, IsSnapStop};

use crate::ask::{holds_other, rule_of, view_of};
use crate::ends::shape_with_end;
use crate::fault::FixFault;
use crate::plan::Plan;
use fix_terms::Edit;
use grid_plane::{GridPoint, NoMemory};
use plane_terms::ShapeFault;
use rule_core::{RuleRow, Side, View};
use rule_loops::{Bad, Dangle};
use rule_words::RuleKind;
use shape::{Feature, Shape};
use std::alloc::Global;
use std::collections::VecDeque;
use topo_core::{KindRules, Topology};

// Whether the line has this end, and it dangles among the features of the side that are shown.
fn dangles(side: Side, view: &View<'_>, line: &Shape, end: usize) -> bool
    ensures { result ≡ dangles_at (of_side side view.now) (slice_get (ends_of line.now) end) }
{
    end < line.end_count() && Dangle::is_bad(side, view, line.end(end))
}

// Whether an end of the feature may be put to the place.
fn may_snap(row: &RuleRow, view: &View<'_>, feature: &Feature, end: usize, to: GridPoint) -> bool
    ensures { result ≡ may_snap row.now view.now feature.now end to }
{
    let RuleKind::LineMustNotHaveDangles = row.kind else {
        return false;
    };
    row.origin.holds(feature)
        && dangles(row.origin, view, feature.shape(), end)
        && holds_other(row.origin, view, feature, to)
}

// The plan that puts this shape under the handle.
fn put_plan(alloc: Global, handle: u32, shape: Shape) -> Result<Plan, NoMemory>
    ensures { IfOk result (λ plan. plan ≡ Put handle shape ∷ []) }
{
    let mut edits = VecDeque::new(alloc);
    edits.push_back(Edit::Put { handle, shape })?;
    Ok(Plan { edits })
}

// The plan that puts the end of the line to the place.
fn end_plan(alloc: Global, feature: &Feature, end: usize, to: GridPoint) -> Result<Plan, FixFault>
    requires line { feature.now.shape.kind ≡ kind.Line }
    requires within { end < length (ends_of feature.now.shape) }
    ensures given { IsShape feature.now.shape }
    ensures plan { IfOk result (λ plan. plan ≡ snapped end to feature.now) }
    ensures flawless { IfOk result (λ _. IsFlawless (snapped_shape end to feature.now.shape)) }
    ensures ready { IfOk result (λ plan. (plan ≡ snapped end to feature.now) × IsShape (snapped_shape end to feature.now.shape)) }
    ensures refused { IfErr result (IsSnapStop (snapped end to feature.now)) }
{
    match shape_with_end(alloc, feature.shape(), end, to) {
        Ok(shape) => Ok(put_plan(alloc, feature.handle(), shape)?),
        Err(ShapeFault::NoMemory) => Err(FixFault::NoMemory),
        Err(fault) => Err(FixFault::Bad(fault)),
    }
}

/// The plan that puts an end of a line, counted from 0, part by part the first vertex and then the last, to a place on another line of
/// the class: for an end that dangles by the rule of this number. Refused where no rule has the number, then where no live feature has
/// the handle, then where the rule is not that against dangles, the end does not dangle, or no other line of the side holds the place;
/// then where the line would be no shape.
pub fn snap<R: KindRules>(
    alloc: Global,
    topology: &Topology<R>,
    rule: u16,
    handle: u32,
    end: u32,
    to: GridPoint,
) -> Result<Plan, FixFault>
    ensures plan { IfOk result (IsSnapped topology.now rule handle end to) }
    ensures refused { IfErr result (IsSnapFault topology.now rule handle end to) }
    ensures possible { IfOk result (λ plan. IsPossible plan topology.now) }
    ensures fixed { IfOk result (λ plan. (row : Row) (f : terms.Feature) → rule_at topology.now.rules rule ≡ Some row → feature_at topology.now.features handle ≡ Some f → (G : List terms.Feature) → IsAfter plan topology.now.features topology.now.next G → HasSnapped row f end to topology.now.features G) }
{
    topology.topology_law();
    let Some(row) = rule_of(topology.rules(), rule) else {
        return Err(FixFault::NoRule);
    };
    let Some(feature) = topology.store().get(handle) else {
        return Err(FixFault::NoFeature);
    };
    let features = topology.store().features();
    let view = view_of(alloc, features.slots())?;
    if !may_snap(&row, &view, feature, end as usize, to) {
        return Err(FixFault::Nothing);
    }
    end_plan(alloc, feature, end as usize, to)
}
