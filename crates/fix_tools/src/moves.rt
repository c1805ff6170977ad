ghost use Rattle.std.specs.Prelude.{◌≡◌, ◌<◌, ℕ, ◌++◌, [], ◌∷◌, List, Some, All, OnOk, IfOk, IfErr, map};
ghost use Rattle.std.specs.Option.{option_to_list};
ghost use Rattle.plane_terms.specs.Lists.{Every};
ghost use Rattle.plane_terms.specs.Point.{Place};
ghost use Rattle.plane_terms.specs.ShapeFaults.{IsFlawless};
ghost use Rattle.feature_store.specs.Slots.{feature_in, filled};
ghost use Rattle.topology_terms.specs.Feature as terms;
ghost use Rattle.topology_terms.specs.Feature.{IsAscending};
ghost use Rattle.fix_terms.specs.Plans.{IsAfter, IsPossible, handles_of, shapes_of};
ghost use Rattle.fix_terms.specs.Move.{moves, touching, HasMoved};
ghost use Rattle.fix_tools.specs.Move.{IsMoveStop, IsMoveFault, IsMovePlan};

use crate::fault::FixFault;
use crate::moved::{is_at, shape_moved};
use crate::plan::Plan;
use crate::touch::has_vertex;
use feature_store::Slot;
use fix_terms::Edit;
use grid_plane::{GridPoint, Handles, NoMemory};
use plane_terms::ShapeFault;
use shape::{Feature, Shape};
use std::alloc::Global;
use std::collections::VecDeque;
use topo_core::{KindRules, Topology};

// Puts the feature, moved, if it has a vertex at the place.
fn push_moved(
    edits: &mut VecDeque<Edit<Shape>>,
    alloc: Global,
    feature: &Feature,
    from: GridPoint,
    to: GridPoint,
) -> Result<(), FixFault>
    ensures ok { OnOk result (edits.new.items ≡ edits.old.items ++ moves from to (feature.now ∷ [])) }
    ensures flawless { OnOk result (Every IsFlawless (shapes_of (moves from to (feature.now ∷ [])))) }
    ensures refused { IfErr result (IsMoveStop from to (feature.now ∷ [])) }
{
    let shape = feature.shape();
    if !has_vertex(shape, from) {
        return Ok(());
    }
    match shape_moved(alloc, shape, from, to) {
        Ok(shape) => {
            let handle = feature.handle();
            match edits.push_back(Edit::Put { handle, shape }) {
                Ok(()) => Ok(()),
                Err(_) => Err(FixFault::NoMemory),
            }
        }
        Err(ShapeFault::NoMemory) => Err(FixFault::NoMemory),
        Err(fault) => Err(FixFault::Bad(fault)),
    }
}

fn push_slot(
    edits: &mut VecDeque<Edit<Shape>>,
    alloc: Global,
    slot: &Slot,
    from: GridPoint,
    to: GridPoint,
) -> Result<(), FixFault>
    ensures ok { OnOk result (edits.new.items ≡ edits.old.items ++ moves from to (option_to_list (feature_in slot.now))) }
    ensures flawless { OnOk result (Every IsFlawless (shapes_of (moves from to (option_to_list (feature_in slot.now))))) }
    ensures refused { IfErr result (IsMoveStop from to (option_to_list (feature_in slot.now))) }
{
    match slot.feature() {
        Some(feature) => push_moved(edits, alloc, feature, from, to),
        None => Ok(()),
    }
}

// Stops at the first that is refused.
fn push_slots(
    edits: &mut VecDeque<Edit<Shape>>,
    alloc: Global,
    slots: &[Slot],
    from: GridPoint,
    to: GridPoint,
) -> Result<(), FixFault>
    ensures ok { OnOk result (edits.new.items ≡ edits.old.items ++ moves from to (filled slots.now)) }
    ensures flawless { OnOk result (Every IsFlawless (shapes_of (moves from to (filled slots.now)))) }
    ensures refused { IfErr result (IsMoveStop from to (filled slots.now)) }
{
    for slot in slots {
        if let Err(fault) = push_slot(edits, alloc, slot, from, to) {
            return Err(fault);
        }
    }
    Ok(())
}

/// The plan that moves all vertices at a place to another one: each live feature with a vertex there is put anew, in the order of
/// handles. Refused where the two places are one, or no live feature has a vertex there; then by the first shape that would be none.
pub fn move_all<R: KindRules>(
    alloc: Global,
    topology: &Topology<R>,
    from: GridPoint,
    to: GridPoint,
) -> Result<Plan, FixFault>
    ensures plan { IfOk result (IsMovePlan from to topology.now.features) }
    ensures refused { IfErr result (IsMoveFault from to topology.now.features) }
    ensures possible { IfOk result (λ plan. IsPossible plan topology.now) }
    ensures fixed { IfOk result (λ plan. (G : List terms.Feature) → IsAfter plan topology.now.features topology.now.next G → HasMoved from to topology.now.features G) }
{
    topology.topology_law();
    if is_at(to, from) {
        return Err(FixFault::Nothing);
    }
    let features = topology.store().features();
    let mut edits = VecDeque::new(alloc);
    if let Err(fault) = push_slots(&mut edits, alloc, features.slots(), from, to) {
        return Err(fault);
    }
    let plan = Plan { edits };
    if plan.len() == 0 {
        return Err(FixFault::Nothing);
    }
    Ok(plan)
}

// Puts the feature's handle last, which is above all others, if it has a vertex at the place.
fn push_touched(handles: &mut Handles, slot: &Slot, place: GridPoint) -> Result<(), NoMemory>
    requires { (f : terms.Feature) → feature_in slot.now ≡ Some f → All (λ h. h < f.handle) handles.old }
    ensures { OnOk result (handles.new ≡ handles.old ++ map {A = terms.Feature} (λ f. f.handle) (touching place (option_to_list (feature_in slot.now)))) }
{
    let Some(feature) = slot.feature() else {
        return Ok(());
    };
    if has_vertex(feature.shape(), place) {
        handles.push(feature.handle())?;
    }
    Ok(())
}

fn touched_in(alloc: Global, slots: &[Slot], place: GridPoint) -> Result<Handles, NoMemory>
    requires { IsAscending (filled slots.now) }
    ensures { IfOk result (λ handles. handles ≡ map {A = terms.Feature} (λ f. f.handle) (touching place (filled slots.now))) }
{
    let mut handles = Handles::new(alloc);
    for slot in slots {
        push_touched(&mut handles, slot, place)?;
    }
    Ok(handles)
}

/// The handles of the live features with a vertex at the place: those that `move_all` puts from there.
pub fn touched<R: KindRules>(
    alloc: Global,
    topology: &Topology<R>,
    from: GridPoint,
) -> Result<Handles, NoMemory>
    ensures touching { IfOk result (λ handles. handles ≡ map {A = terms.Feature} (λ f. f.handle) (touching from topology.now.features)) }
    ensures put { IfOk result (λ handles. (to : Place) (n : ℕ) → handles ≡ handles_of (moves from to topology.now.features) n) }
{
    topology.topology_law();
    let handles = touched_in(alloc, topology.store().features().slots(), from)?;
    Ok(handles)
}
