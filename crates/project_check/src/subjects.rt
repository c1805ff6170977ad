ghost use Rattle.std.specs.Prelude.{◌≡◌, ◌++◌, map, IfOk, OnOk};
ghost use Rattle.std.specs.Option.{option_to_list};
ghost use Rattle.topology_terms.specs.Feature as features_of;
ghost use Rattle.topology_terms.specs.Entry as entries_of;
ghost use Rattle.feature_store.specs.Slots.{feature_in, filled};
ghost use Rattle.validation_laws.specs.Parts.{IsRising};
ghost use Rattle.project_check.specs.Subjects.{HasSubjects};

use error_store::{Entry, Errors};
use feature_store::{Features, Slot};
use grid_index::once_each;
use grid_plane::NoMemory;
use std::alloc::Global;

fn add_handle(slot: &Slot, subjects: &mut Vec<u32>) -> Result<(), NoMemory>
    ensures { OnOk result (subjects.new.items ≡ subjects.old.items ++ map (λ (f : features_of.Feature). f.handle) (option_to_list (feature_in slot.now))) }
{
    if let Some(f) = slot.feature() {
        subjects.push(f.handle())?;
    }
    Ok(())
}

fn add_handles(slots: &[Slot], subjects: &mut Vec<u32>) -> Result<(), NoMemory>
    ensures { OnOk result (subjects.new.items ≡ subjects.old.items ++ map (λ (f : features_of.Feature). f.handle) (filled slots.now)) }
{
    for slot in slots {
        add_handle(slot, subjects)?;
    }
    Ok(())
}

// The subjects of the errors of a run.
fn add_run(entries: &[Entry], subjects: &mut Vec<u32>) -> Result<(), NoMemory>
    ensures { OnOk result (subjects.new.items ≡ subjects.old.items ++ map (λ (e : entries_of.Entry). e.subject) entries.now) }
{
    for e in entries {
        subjects.push(e.key().subject)?;
    }
    Ok(())
}

fn add_subjects(errors: &Errors, subjects: &mut Vec<u32>) -> Result<(), NoMemory>
    ensures { OnOk result (subjects.new.items ≡ subjects.old.items ++ map (λ (e : entries_of.Entry). e.subject) errors.now) }
{
    for run in errors.by_pair().values() {
        add_run(run, subjects)?;
    }
    Ok(())
}

/// The numbers at which a project may be unsound, once each, ascending: the handles of its live features, and the subjects of
/// its errors, live or not. Goes over both once.
pub fn subjects_of(
    alloc: Global,
    features: &Features<'_>,
    errors: &Errors,
) -> Result<Vec<u32>, NoMemory>
    ensures rising { IfOk result (λ v. IsRising v.items) }
    ensures all { IfOk result (λ v. HasSubjects features.now errors.now v.items) }
{
    let mut subjects = Vec::new(alloc);
    add_handles(features.slots(), &mut subjects)?;
    add_subjects(errors, &mut subjects)?;
    once_each(alloc, &mut subjects)?;
    Ok(subjects)
}
