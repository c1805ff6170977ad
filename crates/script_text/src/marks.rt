ghost use Rattle.std.specs.Prelude.{◌≡◌, ℕ, [], ◌∷◌, codes, MatchOption};
ghost use Rattle.line_terms.specs.Forms.{IsLine, HasForm, rule_number, handle, partner};
ghost use Rattle.line_terms.specs.Forms as form;
ghost use Rattle.script_text.specs.Groups.{NoneOf, IsBare, Marks};
ghost use Rattle.script_text.specs.Seen.{command_of, number_of};

use crate::command::Command;
use crate::fields::{next_handle, next_number, next_rule};
use std::num::NonZeroU32;
use text_fields::{behind_word, is_over};

/// The rule, the subject and the partner behind this word, of a line that has just these.
pub(crate) fn key_behind(line: &[u8], word: &[u8]) -> Option<(u16, u32, Option<NonZeroU32>)>
    ensures { MatchOption result ((r a b : ℕ) → IsLine line.now (form.Word word.now ∷ rule_number r ∷ handle a ∷ partner b ∷ []) → ⊥)
        (λ x. IsLine line.now (form.Word word.now ∷ rule_number x.0 ∷ handle x.1 ∷ partner (number_of x.2) ∷ [])) }
{
    let (rule, rest) = next_rule(behind_word(line, word)?)?;
    let (subject, rest) = next_handle(rest)?;
    let (other, rest) = next_number(rest, 0, u32::MAX)?;
    if is_over(rest) {
        Some((rule, subject, NonZeroU32::new(other)))
    } else {
        None
    }
}

/// The command of a line that marks an error as an exception, or takes the mark away.
#[tactic(auto, using(crate::proofs::Groups::no_mark))]
pub fn read_marks(line: &[u8]) -> Option<Command>
    ensures { MatchOption result (NoneOf Marks line.now) (λ c. IsBare line.now (command_of c)) }
{
    if let Some((rule, subject, other)) = key_behind(line, b"mark") {
        return Some(Command::Mark(rule, subject, other));
    }
    if let Some((rule, subject, other)) = key_behind(line, b"unmark") {
        return Some(Command::Unmark(rule, subject, other));
    }
    None
}
