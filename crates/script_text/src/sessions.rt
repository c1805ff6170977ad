ghost use Rattle.std.specs.Prelude.{◌≡◌, ℕ, List, [], ◌∷◌, codes, MatchOption};
ghost use Rattle.line_terms.specs.Forms.{IsLine, HasForm};
ghost use Rattle.line_terms.specs.Forms as form;
ghost use Rattle.script_text.specs.Groups.{NoneOf, IsBare, Sessions};
ghost use Rattle.script_text.specs.Seen.{command_of};

use crate::command::Command;
use crate::fields::next_name;
use grid_plane::Name;
use text_fields::{behind_word, is_over};

/// The name behind this word, of a line that has just these.
pub fn name_behind(line: &[u8], word: &[u8]) -> Option<Name>
    ensures { MatchOption result ((n : List ℕ) → IsLine line.now (form.Word word.now ∷ form.Name n ∷ []) → ⊥)
        (λ n. IsLine line.now (form.Word word.now ∷ form.Name n ∷ [])) }
{
    let (name, rest) = next_name(behind_word(line, word)?)?;
    if is_over(rest) { Some(name) } else { None }
}

/// The command of a line that opens or closes a session.
#[tactic(auto, using(crate::proofs::Groups::no_session))]
pub fn read_sessions(line: &[u8]) -> Option<Command>
    ensures { MatchOption result (NoneOf Sessions line.now) (λ c. IsBare line.now (command_of c)) }
{
    if let Some(editor) = name_behind(line, b"begin") {
        return Some(Command::Begin(editor));
    }
    if let Some(editor) = name_behind(line, b"end") {
        return Some(Command::End(editor));
    }
    if let Some(editor) = name_behind(line, b"discard") {
        return Some(Command::Discard(editor));
    }
    None
}
