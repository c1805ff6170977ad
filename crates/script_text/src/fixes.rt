ghost use Rattle.std.specs.Prelude.{◌≡◌, ◌≤◌, ◌+◌, ◌++◌, ℕ, List, [], ◌∷◌, codes, MatchOption, MatchResult};
ghost use Rattle.plane_terms.specs.Point.{Place, IsInReach};
ghost use Rattle.line_terms.specs.Commands as command;
ghost use Rattle.line_terms.specs.Forms as form;
ghost use Rattle.line_terms.specs.Forms.{IsLine, HasForm, handle, rule_number, end_number, place};
ghost use Rattle.line_terms.specs.Lines.{coordinates};
ghost use Rattle.script_text.specs.Faults.{IsRead};
ghost use Rattle.script_text.specs.Fixes.{AreOf, IsOut, IsNoPlace};
ghost use Rattle.script_text.specs.Groups.{NoneOf, Fixes};
ghost use Rattle.script_text.specs.Seen.{command_of};

use crate::command::Command;
use crate::fault::LineFault;
use crate::fields::{next_handle, next_name, next_number, next_rule};
use crate::validations::{coordinate, read_numbers};
use crate::whole::{Whole, read_whole};
use grid_plane::{GridPoint, Name};
use text_fields::{behind_word, is_over, next_field};

// The two numbers of a place that are all that is left.
fn read_place(text: &[u8]) -> Option<(Whole, Whole)>
    ensures { MatchOption result ((q : Place) → IsLine text.now (place q []) → ⊥)
        (λ x. (q : Place) × IsLine text.now (place q []) × AreOf x.0 x.1 q) }
{
    let (x, rest) = next_field(text);
    let (y, rest) = next_field(rest);
    if !is_over(rest) {
        return None;
    }
    let x = read_whole(x)?;
    let y = read_whole(y)?;
    Some((x, y))
}

fn read_explode(text: &[u8]) -> Option<u32>
    ensures { MatchOption result ((h : ℕ) → IsLine text.now (form.Word (codes "explode") ∷ handle h ∷ []) → ⊥)
        (λ h. IsLine text.now (form.Word (codes "explode") ∷ handle h ∷ [])) }
{
    let (handle, rest) = next_handle(behind_word(text, b"explode")?)?;
    if is_over(rest) { Some(handle) } else { None }
}

fn read_snap(text: &[u8]) -> Option<(u16, u32, u32, Whole, Whole)>
    ensures { MatchOption result ((r h i : ℕ) (q : Place) → IsLine text.now (form.Word (codes "snap") ∷ rule_number r ∷ handle h ∷ end_number i ∷ place q []) → ⊥)
        (λ x. (q : Place) × IsLine text.now (form.Word (codes "snap") ∷ rule_number x.0 ∷ handle x.1 ∷ end_number x.2 ∷ place q []) × AreOf x.3 x.4 q) }
{
    let (rule, rest) = next_rule(behind_word(text, b"snap")?)?;
    let (handle, rest) = next_handle(rest)?;
    let (end, rest) = next_number(rest, 0, u32::MAX)?;
    let (x, y) = read_place(rest)?;
    Some((rule, handle, end, x, y))
}

fn read_create(text: &[u8]) -> Option<(u16, u32, Whole, Whole)>
    ensures { MatchOption result ((r h : ℕ) (q : Place) → IsLine text.now (form.Word (codes "create") ∷ rule_number r ∷ handle h ∷ place q []) → ⊥)
        (λ x. (q : Place) × IsLine text.now (form.Word (codes "create") ∷ rule_number x.0 ∷ handle x.1 ∷ place q []) × AreOf x.2 x.3 q) }
{
    let (rule, rest) = next_rule(behind_word(text, b"create")?)?;
    let (handle, rest) = next_handle(rest)?;
    let (x, y) = read_place(rest)?;
    Some((rule, handle, x, y))
}

fn read_move(text: &[u8]) -> Option<(Whole, Whole, Whole, Whole)>
    ensures { MatchOption result ((q p : Place) → IsLine text.now (form.Word (codes "move") ∷ place q (place p [])) → ⊥)
        (λ x. (q p : Place) × IsLine text.now (form.Word (codes "move") ∷ place q (place p [])) × AreOf x.0 x.1 q × AreOf x.2 x.3 p) }
{
    let rest = behind_word(text, b"move")?;
    read_numbers(rest)
}

// The place of these numbers, the first of which is at this place of the line's, if both lie within the reach.
#[tactic(auto, using(crate::proofs::FixLines::out_x, crate::proofs::FixLines::out_y, crate::proofs::FixLines::place_made))]
fn place_of(first: u32, x: Whole, y: Whole) -> Result<GridPoint, LineFault>
    requires { first ≤ 2 }
    ensures { (q : Place) → AreOf x y q → MatchResult result (λ p. (p ≡ q) × IsInReach q) (IsOut first q) }
{
    let x = coordinate(first, x)?;
    let y = coordinate(first + 1, y)?;
    Ok(GridPoint::at(i64::from(x.get()), i64::from(y.get())).unwrap())
}

#[tactic(auto, using(crate::proofs::FixLines::out_fault))]
fn snap_of(
    editor: Name,
    rule: u16,
    handle: u32,
    end: u32,
    x: Whole,
    y: Whole,
) -> Result<Command, LineFault>
    ensures { (q : Place) → AreOf x y q → MatchResult result (λ c. (command_of c ≡ command.Snap editor rule handle end q) × IsInReach q) (IsNoPlace (coordinates q)) }
{
    let to = place_of(0, x, y)?;
    Ok(Command::Snap(editor, rule, handle, end, to))
}

#[tactic(auto, using(crate::proofs::FixLines::out_fault))]
fn create_of(editor: Name, rule: u16, handle: u32, x: Whole, y: Whole) -> Result<Command, LineFault>
    ensures { (q : Place) → AreOf x y q → MatchResult result (λ c. (command_of c ≡ command.Create editor rule handle q) × IsInReach q) (IsNoPlace (coordinates q)) }
{
    let at = place_of(0, x, y)?;
    Ok(Command::Create(editor, rule, handle, at))
}

#[tactic(auto, using(crate::proofs::FixLines::first_fault, crate::proofs::FixLines::second_fault))]
fn move_of(editor: Name, x: Whole, y: Whole, x2: Whole, y2: Whole) -> Result<Command, LineFault>
    ensures { (q p : Place) → AreOf x y q → AreOf x2 y2 p
        → MatchResult result (λ c. (command_of c ≡ command.Move editor q p) × IsInReach q × IsInReach p) (IsNoPlace (coordinates q ++ coordinates p)) }
{
    let from = place_of(0, x, y)?;
    let to = place_of(2, x2, y2)?;
    Ok(Command::Move(editor, from, to))
}

/// The command of a line that fixes errors or moves shared vertices; or why one of its places is none.
pub fn read_fixes(line: &[u8]) -> Option<Result<Command, LineFault>>
    ensures { MatchOption result (NoneOf Fixes line.now) (λ r. IsRead line.now r) }
{
    let (editor, rest) = next_name(behind_word(line, b"by")?)?;
    if let Some(handle) = read_explode(rest) {
        return Some(Ok(Command::Explode(editor, handle)));
    }
    if let Some((rule, handle, end, x, y)) = read_snap(rest) {
        return Some(snap_of(editor, rule, handle, end, x, y));
    }
    if let Some((rule, handle, x, y)) = read_create(rest) {
        return Some(create_of(editor, rule, handle, x, y));
    }
    if let Some((x, y, x2, y2)) = read_move(rest) {
        return Some(move_of(editor, x, y, x2, y2));
    }
    None
}
