ghost use Rattle.std.specs.Prelude.{◌≡◌, ℕ, IsTrue, MatchOption};
ghost use Rattle.text_terms.specs.Fields.{is_name, skip_blanks, front_field, behind_field, skip_end_blanks, is_skipped};
ghost use Rattle.text_terms.specs.Numbers.{IsWithinText};
ghost use Rattle.line_terms.specs.Commands as commands;
ghost use Rattle.line_terms.specs.Forms.{IsSided};

use crate::command::Sided;
use crate::number::number_within;
use grid_plane::Name;
use text_fields::{next_field, skip_blanks, skip_end_blanks, split_colon};

/// The name that comes next, and what follows it.
pub fn next_name(text: &[u8]) -> Option<(Name, &[u8])>
    ensures { MatchOption result (IsTrue (is_name (front_field (skip_blanks text.now))) → ⊥)
        (λ x. (front_field (skip_blanks text.now) ≡ x.0) × IsTrue (is_name x.0) × (x.1.now ≡ behind_field (skip_blanks text.now))) }
{
    let (field, rest) = next_field(text);
    Some((Name::of(field)?, rest))
}

// The class, or the subtype of one, that a field names.
#[tactic(auto, using(crate::proofs::Sides::no_class))]
fn sided_of(field: &[u8]) -> Option<Sided>
    ensures { MatchOption result ((a : commands.Sided) → IsSided field.now a → ⊥) (λ a. IsSided field.now a) }
{
    if let Some(name) = Name::of(field) {
        return Some(Sided {
            name,
            subtype: None,
        });
    }
    let (front, digits) = split_colon(field)?;
    let name = Name::of(front)?;
    let subtype = number_within(digits, 0, 255)? as u8;
    Some(Sided {
        name,
        subtype: Some(subtype),
    })
}

/// The class, or the subtype of one, that comes next, and what follows it.
pub fn next_own(text: &[u8]) -> Option<(Sided, &[u8])>
    ensures { MatchOption result ((a : commands.Sided) → IsSided (front_field (skip_blanks text.now)) a → ⊥)
        (λ x. IsSided (front_field (skip_blanks text.now)) x.0 × (x.1.now ≡ behind_field (skip_blanks text.now))) }
{
    let (field, rest) = next_field(text);
    Some((sided_of(field)?, rest))
}

/// The number from `low` to `high` that comes next, and what follows it.
pub fn next_number(text: &[u8], low: u32, high: u32) -> Option<(u32, &[u8])>
    ensures { MatchOption result ((n : ℕ) → IsWithinText low high (front_field (skip_blanks text.now)) n → ⊥)
        (λ x. IsWithinText low high (front_field (skip_blanks text.now)) x.0 × (x.1.now ≡ behind_field (skip_blanks text.now))) }
{
    let (field, rest) = next_field(text);
    Some((number_within(field, low, high)?, rest))
}

/// The rule's number that comes next, and what follows it.
pub fn next_rule(text: &[u8]) -> Option<(u16, &[u8])>
    ensures { MatchOption result ((n : ℕ) → IsWithinText 1 65535 (front_field (skip_blanks text.now)) n → ⊥)
        (λ x. IsWithinText 1 65535 (front_field (skip_blanks text.now)) x.0 × (x.1.now ≡ behind_field (skip_blanks text.now))) }
{
    let (rule, rest) = next_number(text, 1, 65_535)?;
    Some((rule as u16, rest))
}

/// The feature's handle that comes next, and what follows it.
pub fn next_handle(text: &[u8]) -> Option<(u32, &[u8])>
    ensures { MatchOption result ((n : ℕ) → IsWithinText 1 4294967295 (front_field (skip_blanks text.now)) n → ⊥)
        (λ x. IsWithinText 1 4294967295 (front_field (skip_blanks text.now)) x.0 × (x.1.now ≡ behind_field (skip_blanks text.now))) }
{
    next_number(text, 1, u32::MAX)
}

/// The subtype that comes next, and what follows it.
pub fn next_subtype(text: &[u8]) -> Option<(u8, &[u8])>
    ensures { MatchOption result ((n : ℕ) → IsWithinText 0 255 (front_field (skip_blanks text.now)) n → ⊥)
        (λ x. IsWithinText 0 255 (front_field (skip_blanks text.now)) x.0 × (x.1.now ≡ behind_field (skip_blanks text.now))) }
{
    let (subtype, rest) = next_number(text, 0, 255)?;
    Some((subtype as u8, rest))
}

/// What is left of a line, without the blanks at its ends.
pub fn rest_of(text: &[u8]) -> &[u8]
    ensures { result.now ≡ skip_end_blanks (skip_blanks text.now) }
{
    skip_end_blanks(skip_blanks(text))
}

/// Whether a line has no field, or begins with `#` but for blanks.
pub fn is_skipped(line: &[u8]) -> bool
    ensures { result ≡ is_skipped line.now }
{
    match skip_blanks(line) {
        [] => true,
        [first, ..] => *first == b'#',
    }
}
