ghost use Rattle.std.specs.Prelude.{◌≡◌, ℕ, List, [], ◌∷◌, Option, is_some, MatchOption};
ghost use Rattle.line_terms.specs.Forms.{IsLine, HasForm, kind_word, second_class};
ghost use Rattle.line_terms.specs.Commands as command;
ghost use Rattle.line_terms.specs.Commands.{Sided};
ghost use Rattle.line_terms.specs.Forms as form;
ghost use Rattle.script_text.specs.Groups.{NoneOf, IsBare, Classes};
ghost use Rattle.script_text.specs.Seen.{command_of};

use crate::command::{Command, Sided};
use crate::fields::{next_name, next_own, next_rule};
use grid_plane::Name;
use rule_words::{Kind, RuleKind};
use text_fields::{behind_word, is_only, is_over, next_field};

// The kind of shape whose word is all that is left.
#[tactic(auto, using(crate::proofs::Groups::no_kind))]
fn last_kind(text: &[u8]) -> Option<Kind>
    ensures { MatchOption result ((k : Kind) → IsLine text.now (form.Word (kind_word k) ∷ []) → ⊥)
        (λ k. IsLine text.now (form.Word (kind_word k) ∷ [])) }
{
    if is_only(text, b"point") {
        return Some(Kind::Point);
    }
    if is_only(text, b"line") {
        return Some(Kind::Line);
    }
    if is_only(text, b"polygon") {
        return Some(Kind::Polygon);
    }
    None
}

fn read_class(line: &[u8]) -> Option<(Name, Kind)>
    ensures { MatchOption result ((n : List ℕ) (k : Kind) → HasForm line.now (command.Class n k) → ⊥)
        (λ x. HasForm line.now (command.Class x.0 x.1)) }
{
    let (name, rest) = next_name(behind_word(line, b"class")?)?;
    Some((name, last_kind(rest)?))
}

// The class, or the subtype of one, that is all that is left.
fn last_own(text: &[u8]) -> Option<Sided>
    ensures { MatchOption result ((a : Sided) → IsLine text.now (form.Own a ∷ []) → ⊥) (λ a. IsLine text.now (form.Own a ∷ [])) }
{
    let (own, rest) = next_own(text)?;
    if is_over(rest) { Some(own) } else { None }
}

// The second class, or the subtype of it, that is all that is left, or nothing where the rule takes no second class.
#[tactic(auto, using(crate::proofs::Groups::no_second))]
fn last_second(takes: bool, text: &[u8]) -> Option<Option<Sided>>
    ensures { MatchOption result ((d : Option Sided) → IsLine text.now (second_class takes d) → ⊥) (λ d. IsLine text.now (second_class takes d)) }
{
    if takes {
        let own = last_own(text)?;
        return Some(Some(own));
    }
    if is_over(text) { Some(None) } else { None }
}

fn read_rule(line: &[u8]) -> Option<(RuleKind, Sided, Option<Sided>)>
    ensures { MatchOption result ((k : RuleKind) (a : Sided) (d : Option Sided) → HasForm line.now (command.Rule k a d) → ⊥)
        (λ x. HasForm line.now (command.Rule x.0 x.1 x.2)) }
{
    let (word, rest) = next_field(behind_word(line, b"rule")?);
    let kind = RuleKind::of_word(word)?;
    let (origin, rest) = next_own(rest)?;
    let dest = last_second(kind.takes_dest(), rest)?;
    Some((kind, origin, dest))
}

fn read_drop_rule(line: &[u8]) -> Option<u16>
    ensures { MatchOption result ((r : ℕ) → HasForm line.now (command.DropRule r) → ⊥) (λ r. HasForm line.now (command.DropRule r)) }
{
    let (rule, rest) = next_rule(behind_word(line, b"droprule")?)?;
    if is_over(rest) { Some(rule) } else { None }
}

/// The command of a line on a class or a rule.
#[tactic(auto, using(crate::proofs::Groups::no_class))]
pub fn read_classes(line: &[u8]) -> Option<Command>
    ensures { MatchOption result (NoneOf Classes line.now) (λ c. IsBare line.now (command_of c)) }
{
    if let Some((name, kind)) = read_class(line) {
        return Some(Command::Class(name, kind));
    }
    if let Some((kind, origin, dest)) = read_rule(line) {
        return Some(Command::Rule(kind, origin, dest));
    }
    if let Some(rule) = read_drop_rule(line) {
        return Some(Command::DropRule(rule));
    }
    None
}
