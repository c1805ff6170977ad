ghost use Rattle.std.specs.Prelude.{◌≡◌, ◌++◌, flat_map, IfOk, OnOk};
ghost use Rattle.std.specs.Option.{option_to_list};
ghost use Rattle.plane_terms.specs.Cell as terms_cell;
ghost use Rattle.feature_store.specs.Slots.{feature_in, filled};
ghost use Rattle.dirty_area.specs.Blocks.{all_rects};
ghost use Rattle.project_text.specs.Pushed.{head_text, class_texts, rule_text, feature_text, dirty_text, cell_text, error_texts, sections_text};
ghost use Rattle.project_terms.specs.Written.{project_text};

use crate::data::ProjectData;
use crate::lines::{
    push_cell_line, push_class_line, push_dirty_line, push_error_line, push_feature_line,
    push_rule_line,
};
use convex_cell::Cells;
use dirty_area::{Block, Dirt};
use error_store::{Entry, Errors};
use feature_store::{Slot, Store};
use grid_plane::{NoMemory, Rect};
use rule_core::InForce;
use std::alloc::Global;
use text_out::{push_end, push_number, push_text};

fn push_head(out: &mut Vec<u8>, next: u32) -> Result<(), NoMemory>
    ensures { OnOk result (out.new.items ≡ out.old.items ++ head_text next) }
{
    push_text(out, b"topology 2\nnext")?;
    push_number(out, next)?;
    push_end(out)
}

fn push_classes(out: &mut Vec<u8>, store: &Store) -> Result<(), NoMemory>
    ensures { OnOk result (out.new.items ≡ out.old.items ++ class_texts store.now.classes) }
{
    for before in 0..store.class_count() {
        push_class_line(out, store, before + 1)?;
    }
    Ok(())
}

/// Appends the line of each rule in force, in the order of their numbers. The classes are the store's.
pub fn push_rules(out: &mut Vec<u8>, store: &Store, rules: &[InForce]) -> Result<(), NoMemory>
    ensures { OnOk result (out.new.items ≡ out.old.items ++ flat_map (rule_text store.now.classes) rules.now) }
{
    for rule in rules {
        push_rule_line(out, store, rule)?;
    }
    Ok(())
}

/// Appends the line of each live feature, in the order of their handles.
pub fn push_features(out: &mut Vec<u8>, store: &Store) -> Result<(), NoMemory>
    ensures { OnOk result (out.new.items ≡ out.old.items ++ flat_map (feature_text store.now.classes) store.now.features) }
{
    push_listed(out, store, store.features().slots())
}

fn push_slot(out: &mut Vec<u8>, store: &Store, slot: &Slot) -> Result<(), NoMemory>
    ensures { OnOk result (out.new.items ≡ out.old.items ++ flat_map (feature_text store.now.classes) (option_to_list (feature_in slot.now))) }
{
    match slot.feature() {
        Some(feature) => push_feature_line(out, store, feature),
        None => Ok(()),
    }
}

fn push_listed(out: &mut Vec<u8>, store: &Store, slots: &[Slot]) -> Result<(), NoMemory>
    ensures { OnOk result (out.new.items ≡ out.old.items ++ flat_map (feature_text store.now.classes) (filled slots.now)) }
{
    for slot in slots {
        push_slot(out, store, slot)?;
    }
    Ok(())
}

fn push_dirt(out: &mut Vec<u8>, rects: &[Rect]) -> Result<(), NoMemory>
    ensures { OnOk result (out.new.items ≡ out.old.items ++ flat_map dirty_text rects.now) }
{
    for r in rects {
        push_dirty_line(out, r)?;
    }
    Ok(())
}

/// Appends the line of each dirty rectangle, one block after another.
pub fn push_blocks(out: &mut Vec<u8>, blocks: &[Block]) -> Result<(), NoMemory>
    ensures { OnOk result (out.new.items ≡ out.old.items ++ flat_map dirty_text (all_rects blocks.now)) }
{
    for block in blocks {
        push_dirt(out, block.rects())?;
    }
    Ok(())
}

fn push_cells(out: &mut Vec<u8>, cells: &Cells) -> Result<(), NoMemory>
    ensures { OnOk result (out.new.items ≡ out.old.items ++ flat_map {X = terms_cell.Cell} cell_text cells.now) }
{
    for i in 0..cells.len() {
        push_cell_line(out, &cells.cell(i))?;
    }
    Ok(())
}

fn push_error(out: &mut Vec<u8>, entry: &Entry) -> Result<(), NoMemory>
    ensures { OnOk result (out.new.items ≡ out.old.items ++ error_texts entry.now) }
{
    push_error_line(out, entry)?;
    push_cells(out, entry.cells())
}

// The lines of the errors of a run.
fn push_run(out: &mut Vec<u8>, entries: &[Entry]) -> Result<(), NoMemory>
    ensures { OnOk result (out.new.items ≡ out.old.items ++ flat_map error_texts entries.now) }
{
    for entry in entries {
        push_error(out, entry)?;
    }
    Ok(())
}

/// Appends the lines of each error, in the order of their keys: its own, and behind it those of its cells.
pub fn push_errors(out: &mut Vec<u8>, errors: &Errors) -> Result<(), NoMemory>
    ensures { OnOk result (out.new.items ≡ out.old.items ++ flat_map error_texts errors.now) }
{
    for run in errors.by_pair().values() {
        push_run(out, run)?;
    }
    Ok(())
}

fn push_project(
    out: &mut Vec<u8>,
    store: &Store,
    rules: &[InForce],
    blocks: &[Block],
    errors: &Errors,
) -> Result<(), NoMemory>
    ensures { OnOk result (out.new.items ≡ out.old.items ++ sections_text (record { classes = store.now.classes; rules = rules.now; features = store.now.features; next = store.now.next; dirt = all_rects blocks.now; entries = errors.now })) }
{
    push_head(out, store.next_handle())?;
    push_classes(out, store)?;
    push_rules(out, store, rules)?;
    push_features(out, store)?;
    push_blocks(out, blocks)?;
    push_errors(out, errors)?;
    push_text(out, b"end\n")?;
    Ok(())
}

/// The text of the project of these parts, in format 2: for each project one text. The parts stay as they are.
pub fn write_parts(
    alloc: Global,
    store: &Store,
    rules: &[InForce],
    dirt: &Dirt,
    errors: &Errors,
) -> Result<Vec<u8>, NoMemory>
    ensures { IfOk result (λ text. text.items ≡ project_text (record { classes = store.now.classes; rules = rules.now; features = store.now.features; next = store.now.next; dirt = dirt.now; entries = errors.now })) }
{
    let mut out = Vec::new(alloc);
    push_project(&mut out, store, rules, dirt.blocks(), errors)?;
    Ok(out)
}

/// The text of a project, in format 2: for each project one text.
pub fn write_project(alloc: Global, project: &ProjectData) -> Result<Vec<u8>, NoMemory>
    ensures { IfOk result (λ text. text.items ≡ project_text project.now) }
{
    write_parts(
        alloc,
        &project.store,
        &project.rules,
        &project.dirt,
        &project.errors,
    )
}
