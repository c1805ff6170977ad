ghost use Rattle.std.specs.Prelude.{◌≡◌, ◌≤◌, ◌<◌, ◌+◌, ◌++◌, ◌∷◌, [], length, map, List, IfOk, IfErr, OnOk};
ghost use Rattle.plane_terms.specs.Lists.{Every};
ghost use Rattle.topology_terms.specs.Feature as terms;
ghost use Rattle.shape.specs.Given.{rings_in};
ghost use Rattle.fix_terms.specs.Plans.{IsAfter, IsPossible};
ghost use Rattle.fix_terms.specs.declared.edit.Edit.TheVariants.{Add};
ghost use Rattle.fix_terms.specs.Explode.{line_of, exploded_by, HasExploded};
ghost use Rattle.fix_tools.specs.Explode.{IsLinePart, added_parts, IsExploded, IsExplodeFault};

use crate::fault::FixFault;
use crate::parts::line_of_part;
use crate::plan::Plan;
use fix_terms::Edit;
use grid_plane::{GridPoint, NoMemory};
use shape::{Feature, Shape};
use std::alloc::Global;
use std::collections::VecDeque;
use topo_core::{KindRules, Topology};

// A line of fewer parts is not taken apart.
const FEWEST: usize = 2;

// An addition of this part of the feature, of its class and subtype.
fn part_added(alloc: Global, feature: &Feature, part: &[GridPoint]) -> Result<Edit<Shape>, NoMemory>
    requires { IsLinePart part.now }
    ensures { IfOk result (λ edit. edit ≡ Add feature.now.class feature.now.subtype (line_of (part.now ∷ []))) }
{
    Ok(Edit::Add {
        class: feature.class(),
        subtype: feature.subtype(),
        shape: line_of_part(alloc, part)?,
    })
}

// Puts an addition of each of these parts of the feature last.
fn push_parts(
    edits: &mut VecDeque<Edit<Shape>>,
    alloc: Global,
    feature: &Feature,
    parts: &[Vec<GridPoint>],
) -> Result<(), NoMemory>
    requires { Every IsLinePart (rings_in parts.now) }
    ensures { OnOk result (edits.new.items ≡ edits.old.items ++ added_parts feature.now (rings_in parts.now)) }
{
    for part in parts {
        edits.push_back(part_added(alloc, feature, part)?)?;
    }
    Ok(())
}

// The first of these parts stays under the feature's handle; each other one comes as a feature of its class and subtype.
fn parts_plan(alloc: Global, feature: &Feature, parts: &[Vec<GridPoint>]) -> Result<Plan, NoMemory>
    requires some { 1 ≤ length parts.now }
    requires parts { Every IsLinePart (rings_in parts.now) }
    ensures { IfOk result (λ plan. plan ≡ exploded_by feature.now (map (λ r. r ∷ []) (rings_in parts.now))) }
{
    let mut edits = VecDeque::new(alloc);
    let shape = line_of_part(alloc, &parts[0])?;
    let handle = feature.handle();
    edits.push_back(Edit::Put { handle, shape })?;
    push_parts(&mut edits, alloc, feature, &parts[1..])?;
    Ok(Plan { edits })
}

/// The plan that makes each part of a line a feature of its own: the first stays under the handle, and the others come under new ones,
/// of the line's class and subtype. Refused where no live feature has the handle, then where it is no line of two or more parts, then
/// where there are not enough handles.
pub fn explode<R: KindRules>(
    alloc: Global,
    topology: &Topology<R>,
    handle: u32,
) -> Result<Plan, FixFault>
    ensures plan { IfOk result (IsExploded topology.now handle) }
    ensures refused { IfErr result (IsExplodeFault topology.now handle) }
    ensures possible { IfOk result (λ plan. IsPossible plan topology.now) }
    ensures fixed { IfOk result (λ plan. (G : List terms.Feature) → IsAfter plan topology.now.features topology.now.next G → HasExploded topology.now.features topology.now.next handle plan G) }
{
    topology.topology_law();
    let Some(feature) = topology.store().get(handle) else {
        return Err(FixFault::NoFeature);
    };
    let shape = feature.shape();
    let parts = shape.lines();
    if parts.len() < FEWEST {
        return Err(FixFault::Nothing);
    }
    shape.kind();
    let next = topology.store().next_handle();
    if u64::from(next) + parts.len() as u64 - 1 > u64::from(u32::MAX) {
        return Err(FixFault::Spent);
    }
    Ok(parts_plan(alloc, feature, parts)?)
}
