ghost use Rattle.std.specs.Prelude.{◌≡◌, List, Some, IfOk, IfErr};
ghost use Rattle.topology_terms.specs.Feature as terms;
ghost use Rattle.topology_terms.specs.Feature.{feature_at};
ghost use Rattle.topology_terms.specs.Broken.{Row};
ghost use Rattle.topology_terms.specs.Project.{rule_at};
ghost use Rattle.fix_terms.specs.Plans.{IsAfter};
ghost use Rattle.fix_terms.specs.Create.{created, may_create, subtype_of, HasCreated};
ghost use Rattle.fix_tools.specs.Create.{IsCreated, IsCreateFault};

use crate::ask::{none_inside, rule_of, view_of};
use crate::fault::FixFault;
use crate::plan::Plan;
use fix_terms::Edit;
use grid_plane::{GridPoint, NoMemory};
use rule_core::{RuleRow, Side, View, has_end_at};
use rule_loops::{AtPlace, InsideThere, PointThere, none_there};
use rule_words::RuleKind;
use shape::{Feature, Shape};
use std::alloc::Global;
use std::collections::VecDeque;
use topo_core::{KindRules, Topology};

// Whether the rule asks for a point at the place for the feature.
fn may_create(row: &RuleRow, view: &View<'_>, feature: &Feature, at: GridPoint) -> bool
    ensures { result ≡ may_create row.now view.now feature.now at }
{
    let dest = row.dest_side();
    match row.kind {
        RuleKind::PolygonContainsPoint => {
            row.origin.holds(feature)
                && none_inside(dest, view, feature)
                && InsideThere::is_at(feature, at)
        }
        RuleKind::LineEndpointMustBeCoveredBy => {
            row.origin.holds(feature)
                && has_end_at(feature.shape(), at)
                && none_there::<PointThere>(dest, view, at)
        }
        _ => false,
    }
}

// The subtype of a feature that is made for the side.
fn subtype_of(side: Side) -> u8
    ensures { result ≡ subtype_of side }
{
    side.subtype.unwrap_or(0)
}

// The plan that adds a point at the place, on the second side of the rule.
fn point_plan(alloc: Global, row: &RuleRow, at: GridPoint) -> Result<Plan, NoMemory>
    ensures { IfOk result (λ plan. plan ≡ created row.now at) }
{
    let side = row.dest_side();
    let mut edits = VecDeque::new(alloc);
    edits.push_back(Edit::Add {
        class: side.class,
        subtype: subtype_of(side),
        shape: Shape::point(at),
    })?;
    Ok(Plan { edits })
}

/// The plan that adds a point at a place, on the second side of the rule of this number and of the subtype that it binds, or 0: inside a
/// polygon that must contain one and does not, or at an end of a line that must be covered by one and is not. Refused where no rule has
/// the number, then where no live feature has the handle, then where the rule does not ask for a point there, then where there is no
/// handle for it.
pub fn create<R: KindRules>(
    alloc: Global,
    topology: &Topology<R>,
    rule: u16,
    handle: u32,
    at: GridPoint,
) -> Result<Plan, FixFault>
    ensures plan { IfOk result (IsCreated topology.now rule handle at) }
    ensures refused { IfErr result (IsCreateFault topology.now rule handle at) }
    ensures fixed { IfOk result (λ plan. (row : Row) (f : terms.Feature) → rule_at topology.now.rules rule ≡ Some row → feature_at topology.now.features handle ≡ Some f → (G : List terms.Feature) → IsAfter plan topology.now.features topology.now.next G → HasCreated row f at topology.now.features topology.now.next G) }
{
    topology.topology_law();
    let Some(row) = rule_of(topology.rules(), rule) else {
        return Err(FixFault::NoRule);
    };
    let Some(feature) = topology.store().get(handle) else {
        return Err(FixFault::NoFeature);
    };
    let features = topology.store().features();
    let view = view_of(alloc, features.slots())?;
    if !may_create(&row, &view, feature, at) {
        return Err(FixFault::Nothing);
    }
    if topology.store().next_handle() == u32::MAX {
        return Err(FixFault::Spent);
    }
    Ok(point_plan(alloc, &row, at)?)
}
