ghost use Rattle.std.specs.Prelude.{◌≡◌, ◌≤◌, ℕ, List, [], ◌∷◌, codes, length, MatchOption, MatchResult};
ghost use Rattle.line_terms.specs.Commands as command;
ghost use Rattle.line_terms.specs.Commands.{Form};
ghost use Rattle.line_terms.specs.Forms as form;
ghost use Rattle.line_terms.specs.Forms.{IsLine, HasForm, pieces, written, handle, subtype};
ghost use Rattle.script_text.specs.Edits.{edit_form, behind_editor, IsTextWithin, IsEditOf, IsEditFault};
ghost use Rattle.script_text.specs.Faults.{IsRead};
ghost use Rattle.script_text.specs.Groups.{group_of, NoneOf, Edits};
ghost use Rattle.script_text.specs.Seen.{command_of};

use crate::command::{Command, Sided};
use crate::fault::LineFault;
use crate::fields::{next_handle, next_name, next_own, next_subtype, rest_of};
use grid_plane::Name;
use std::alloc::Global;
use text_fields::{behind_word, is_only, is_over};
use wkt_text::read_wkt;

/// What an edit's line says behind its editor; the text of a shape is unread.
#[derive(Drop)]
pub enum Edit<'a> {
    /// `add CLASS SHAPE`
    Add(Sided, &'a [u8]),
    /// `change H SHAPE`
    Change(u32, &'a [u8]),
    /// `delete H`
    Delete(u32),
    /// `retype H SUBTYPE`
    Retype(u32, u8),
    /// `undo`
    Undo,
    /// `redo`
    Redo,
}

fn read_add(text: &[u8]) -> Option<(Sided, &[u8])>
    ensures { MatchOption result ((a : command.Sided) (s : List ℕ) → IsLine text.now (form.Word (codes "add") ∷ form.Own a ∷ form.Rest s ∷ []) → ⊥)
        (λ x. IsLine text.now (form.Word (codes "add") ∷ form.Own x.0 ∷ form.Rest x.1.now ∷ [])) }
{
    let (own, rest) = next_own(behind_word(text, b"add")?)?;
    Some((own, rest_of(rest)))
}

fn read_change(text: &[u8]) -> Option<(u32, &[u8])>
    ensures { MatchOption result ((h : ℕ) (s : List ℕ) → IsLine text.now (form.Word (codes "change") ∷ handle h ∷ form.Rest s ∷ []) → ⊥)
        (λ x. IsLine text.now (form.Word (codes "change") ∷ handle x.0 ∷ form.Rest x.1.now ∷ [])) }
{
    let (handle, rest) = next_handle(behind_word(text, b"change")?)?;
    Some((handle, rest_of(rest)))
}

fn read_delete(text: &[u8]) -> Option<u32>
    ensures { MatchOption result ((h : ℕ) → IsLine text.now (form.Word (codes "delete") ∷ handle h ∷ []) → ⊥)
        (λ h. IsLine text.now (form.Word (codes "delete") ∷ handle h ∷ [])) }
{
    let (handle, rest) = next_handle(behind_word(text, b"delete")?)?;
    if is_over(rest) { Some(handle) } else { None }
}

fn read_retype(text: &[u8]) -> Option<(u32, u8)>
    ensures { MatchOption result ((h t : ℕ) → IsLine text.now (form.Word (codes "retype") ∷ handle h ∷ subtype t ∷ []) → ⊥)
        (λ x. IsLine text.now (form.Word (codes "retype") ∷ handle x.0 ∷ subtype x.1 ∷ [])) }
{
    let (handle, rest) = next_handle(behind_word(text, b"retype")?)?;
    let (subtype, rest) = next_subtype(rest)?;
    if is_over(rest) {
        Some((handle, subtype))
    } else {
        None
    }
}

// What a line says behind its editor.
#[tactic(auto, using(crate::proofs::Groups::no_edit))]
fn read_edit(text: &[u8]) -> Option<Edit<'_>>
    ensures { MatchOption result ((f : Form) → group_of f ≡ Edits → IsLine text.now (behind_editor (pieces form.Rest written f)) → ⊥)
        (λ d. (e : List ℕ) → IsLine text.now (behind_editor (pieces form.Rest written (edit_form e d)))) }
{
    if let Some((own, shape)) = read_add(text) {
        return Some(Edit::Add(own, shape));
    }
    if let Some((handle, shape)) = read_change(text) {
        return Some(Edit::Change(handle, shape));
    }
    if let Some(handle) = read_delete(text) {
        return Some(Edit::Delete(handle));
    }
    if let Some((handle, subtype)) = read_retype(text) {
        return Some(Edit::Retype(handle, subtype));
    }
    if is_only(text, b"undo") {
        return Some(Edit::Undo);
    }
    if is_only(text, b"redo") {
        return Some(Edit::Redo);
    }
    None
}

fn add_of(alloc: Global, editor: Name, own: Sided, text: &[u8]) -> Result<Command, LineFault>
    requires { length text.now ≤ 1048576 }
    ensures { MatchResult result (λ c. IsEditOf (command.Add editor own text.now) (command_of c)) (λ e. IsEditFault (command.Add editor own text.now) e) }
{
    match read_wkt(alloc, text) {
        Ok(shape) => Ok(Command::Add(editor, own, shape)),
        Err(fault) => Err(LineFault::from(fault)),
    }
}

fn change_of(alloc: Global, editor: Name, handle: u32, text: &[u8]) -> Result<Command, LineFault>
    requires { length text.now ≤ 1048576 }
    ensures { MatchResult result (λ c. IsEditOf (command.Change editor handle text.now) (command_of c)) (λ e. IsEditFault (command.Change editor handle text.now) e) }
{
    match read_wkt(alloc, text) {
        Ok(shape) => Ok(Command::Change(editor, handle, shape)),
        Err(fault) => Err(LineFault::from(fault)),
    }
}

// The command of an edit, its shape read.
fn edit_of(alloc: Global, editor: Name, edit: Edit<'_>) -> Result<Command, LineFault>
    requires { IsTextWithin (edit_form editor edit) }
    ensures { MatchResult result (λ c. IsEditOf (edit_form editor edit.entry) (command_of c)) (λ e. IsEditFault (edit_form editor edit.entry) e) }
{
    match edit {
        Edit::Add(own, text) => add_of(alloc, editor, own, text),
        Edit::Change(handle, text) => change_of(alloc, editor, handle, text),
        Edit::Delete(handle) => Ok(Command::Delete(editor, handle)),
        Edit::Retype(handle, subtype) => Ok(Command::Retype(editor, handle, subtype)),
        Edit::Undo => Ok(Command::Undo(editor)),
        Edit::Redo => Ok(Command::Redo(editor)),
    }
}

/// The command of a line that edits features, or undoes or redoes an edit; or why its shape's text is none.
pub fn read_edits(alloc: Global, line: &[u8]) -> Option<Result<Command, LineFault>>
    requires { length line.now ≤ 1048576 }
    ensures { MatchOption result (NoneOf Edits line.now) (λ r. IsRead line.now r) }
{
    let (editor, rest) = next_name(behind_word(line, b"by")?)?;
    let edit = read_edit(rest)?;
    Some(edit_of(alloc, editor, edit))
}
