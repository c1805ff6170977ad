ghost use Rattle.std.specs.Prelude.{◌≡◌, ◌↔◌, ◌≤◌, ℕ, [], ◌∷◌, ◌++◌, if◌then◌else◌, Contains, filter, flat_map, IfOk, OnOk};
ghost use Rattle.std.specs.Option.{option_to_list};
ghost use Rattle.std.specs.List.Sorted.{IsStrictlyIncreasing};
ghost use Rattle.topology_terms.specs.Feature.{env, feature_at};
ghost use Rattle.topology_terms.specs.Feature as features_of;
ghost use Rattle.topology_terms.specs.Entry as entries_of;
ghost use Rattle.topology_terms.specs.Project.{Project};
ghost use Rattle.topology_terms.specs.Changes.{IsSelected};
ghost use Rattle.plane_terms.specs.Dirt.{MeetsDirt};
ghost use Rattle.plane_terms.specs.Rectangle.{rects_meet};
ghost use Rattle.validation_laws.specs.Parts.{IsRising, live_of};
ghost use Rattle.validation_laws.specs.Picked.{ArePicked};
ghost use Rattle.validation.specs.Asked.{IsAskedOf, dirty_parts};
ghost use Rattle.validation.specs.Placed.{HasNear};

use crate::dirty::DirtyParts;
use crate::ruled::RuledFeatures;
use error_store::{Entry, Errors};
use feature_store::Features;
use grid_index::{Index, Meter, once_each};
use grid_plane::{Handles, NoMemory, Rect};
use std::alloc::Global;
use step_count::Count;

fn push_if(found: &mut Vec<u32>, test: bool, handle: u32) -> Result<(), NoMemory>
    ensures { OnOk result (found.new.items ≡ found.old.items ++ (if test then handle ∷ [] else [])) }
{
    if test {
        found.push(handle)?;
    }
    Ok(())
}

// The live feature of this handle, if its envelope meets what is dirty of the window.
fn add_feature(
    features: &Features<'_>,
    handle: u32,
    dirty: &DirtyParts,
    found: &mut Vec<u32>,
) -> Result<(), NoMemory>
    requires { features_of.IsAscending features.now }
    ensures { OnOk result (ArePicked (λ (f : features_of.Feature). MeetsDirt dirty.now (env f)) (λ (f : features_of.Feature). f.handle) (option_to_list (feature_at features.now handle)) found.old.items found.new.items) }
{
    match features.get(handle) {
        Some(f) => push_if(found, dirty.meets(&f.shape().env()), f.handle()),
        None => Ok(()),
    }
}

// The live features of these handles whose envelope meets what is dirty of the window.
fn add_features(
    features: &Features<'_>,
    handles: &[u32],
    dirty: &DirtyParts,
    found: &mut Vec<u32>,
) -> Result<(), NoMemory>
    requires { features_of.IsAscending features.now }
    ensures { OnOk result (ArePicked (λ (f : features_of.Feature). MeetsDirt dirty.now (env f)) (λ (f : features_of.Feature). f.handle) (live_of features.now handles.now) found.old.items found.new.items) }
{
    for handle in handles {
        add_feature(features, *handle, dirty, found)?;
    }
    Ok(())
}

// The subjects of the errors of a run whose frame does.
fn add_run(run: &[Entry], dirty: &DirtyParts, found: &mut Vec<u32>) -> Result<(), NoMemory>
    ensures { OnOk result (ArePicked (λ (e : entries_of.Entry). MeetsDirt dirty.now e.frame) (λ (e : entries_of.Entry). e.subject) run.now found.old.items found.new.items) }
{
    for e in run {
        let key = e.key();
        push_if(found, dirty.meets(&e.frame()), key.subject)?;
    }
    Ok(())
}

// The subjects of the errors of these runs whose frame does.
fn add_subjects(runs: &[&[Entry]], dirty: &DirtyParts, found: &mut Vec<u32>) -> Result<(), NoMemory>
    ensures { OnOk result (ArePicked (λ (e : entries_of.Entry). MeetsDirt dirty.now e.frame) (λ (e : entries_of.Entry). e.subject) (flat_map (λ r. r.now) runs.now) found.old.items found.new.items) }
{
    for run in runs {
        add_run(run, dirty, found)?;
    }
    Ok(())
}

// The handles that an index gives for what is dirty of the window, once each, ascending; it may give others too.
fn near_of<M: Meter>(
    alloc: Global,
    dirty: &DirtyParts,
    index: &Index<M>,
    meter: &mut M,
) -> Result<Vec<u32>, NoMemory>
    ensures rising { IfOk result (λ v. IsStrictlyIncreasing v.items) }
    ensures near { IfOk result (λ v. HasNear v.items index.now dirty.now) }
    ensures asked { IsAskedOf dirty.now index.now (M.taken meter.old) (M.taken meter.new) }
    ensures rises { M.taken meter.old ≤ M.taken meter.new }
{
    let mut near = dirty.near(alloc, index, meter)?;
    once_each(alloc, &mut near)?;
    Ok(near)
}

/// The handles that the window and the dirt select: of live features by their envelope, and of subjects of errors by the
/// error's frame. Of the dirt it takes the rectangles that meet the window. It looks only at those features and errors that the
/// indexes give. The first meter counts the steps in that of the features, and the second those in that of the errors' frames.
pub fn select<R, M: Meter>(
    ruled: &RuledFeatures<'_, R, M>,
    errors: &Errors,
    met: &[Rect],
    window: &Rect,
    feature_meter: &mut M,
    error_meter: &mut Count,
) -> Result<Handles, NoMemory>
    ensures rising { IfOk result IsRising }
    ensures chosen { IfOk result (λ s. (p : Project) → p.features ≡ ruled.now.features → met.now ≡ filter (λ r. rects_meet r window.now) p.dirt → p.entries ≡ errors.now → (a : ℕ) → Contains s a ↔ IsSelected p window.now a) }
    ensures asked { IsAskedOf (dirty_parts met.now window.now) ruled.now.placed (M.taken feature_meter.old) (M.taken feature_meter.new) }
    ensures rises { M.taken feature_meter.old ≤ M.taken feature_meter.new }
    ensures error_rises { error_meter.old ≤ error_meter.new }
{
    let alloc = ruled.alloc;
    let dirty = DirtyParts::of(alloc, met, window)?;
    let near = near_of(alloc, &dirty, ruled.index(), feature_meter)?;
    let framed = near_of(alloc, &dirty, errors.frames(), error_meter)?;
    ruled.order_law();
    errors.order_law();
    let mut found = Vec::with_capacity(alloc, near.len())?;
    add_features(ruled.features(), &near, &dirty, &mut found)?;
    let runs = errors.of_subjects(alloc, &framed)?;
    add_subjects(&runs, &dirty, &mut found)?;
    once_each(alloc, &mut found)?;
    Ok(Handles::of(found))
}
