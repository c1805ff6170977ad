ghost use Rattle.std.specs.Prelude.{◌≡◌, ◌++◌, flat_map, length, OnOk};
ghost use Rattle.script_terms.specs.Reply.{total_line};
ghost use Rattle.project_text.specs.Pushed.{dirty_text, error_text, error_texts, feature_text, rule_text};

use crate::errors::push_entry_lines;
use crate::numbers::push_total;
use dirty_area::Dirt;
use error_store::Errors;
use feature_store::Store;
use grid_plane::NoMemory;
use project_text::{push_blocks, push_errors, push_features, push_rules};
use rule_core::InForce;

/// Appends a line for each dirty rectangle, in their order, and their number.
pub fn push_dirty_list(out: &mut Vec<u8>, dirt: &Dirt) -> Result<(), NoMemory>
    ensures { OnOk result (out.new.items ≡ out.old.items ++ (flat_map dirty_text dirt.now ++ total_line (length dirt.now))) }
{
    push_blocks(out, dirt.blocks())?;
    push_total(out, dirt.len())
}

/// Appends a line for each error, in the order of their keys, and their number.
pub fn push_error_list(out: &mut Vec<u8>, errors: &Errors) -> Result<(), NoMemory>
    ensures { OnOk result (out.new.items ≡ out.old.items ++ (flat_map error_text errors.now ++ total_line (length errors.now))) }
{
    push_entry_lines(out, errors)?;
    push_total(out, errors.len())
}

/// Appends the line of each error, in the order of their keys, and behind it those of its cells; then the number of errors.
pub fn push_cell_list(out: &mut Vec<u8>, errors: &Errors) -> Result<(), NoMemory>
    ensures { OnOk result (out.new.items ≡ out.old.items ++ (flat_map error_texts errors.now ++ total_line (length errors.now))) }
{
    push_errors(out, errors)?;
    push_total(out, errors.len())
}

/// Appends a line for each live feature, in the order of their handles, and their number.
pub fn push_feature_list(out: &mut Vec<u8>, store: &Store) -> Result<(), NoMemory>
    ensures { OnOk result (out.new.items ≡ out.old.items ++ (flat_map (feature_text store.now.classes) store.now.features ++ total_line (length store.now.features))) }
{
    push_features(out, store)?;
    push_total(out, store.len())
}

/// Appends a line for each rule in force, in the order of their numbers, and how many there are. The classes are the store's.
pub fn push_rule_list(out: &mut Vec<u8>, store: &Store, rules: &[InForce]) -> Result<(), NoMemory>
    ensures { OnOk result (out.new.items ≡ out.old.items ++ (flat_map (rule_text store.now.classes) rules.now ++ total_line (length rules.now))) }
{
    push_rules(out, store, rules)?;
    push_total(out, rules.len())
}
