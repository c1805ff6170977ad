ghost use Rattle.std.specs.Prelude.{◌≡◌, ℕ, MatchOption};
ghost use Rattle.text_terms.specs.Numbers.{IsWithinText};
ghost use Rattle.script_text.specs.Wholes.{is_digits};

use text_fields::{are_digits, value_up_to};

/// Whether a text is digits alone, at least one.
pub fn is_digits(text: &[u8]) -> bool
    ensures { result ≡ is_digits text.now }
{
    !text.is_empty() && are_digits(text)
}

/// The number that a field writes, if it is from `low` to `high`; zeros in front are free.
#[tactic(auto, using(crate::proofs::Numbers::read, crate::proofs::Numbers::not_digits, crate::proofs::Numbers::too_high, crate::proofs::Numbers::too_low))]
pub fn number_within(field: &[u8], low: u32, high: u32) -> Option<u32>
    ensures { MatchOption result ((n : ℕ) → IsWithinText low high field.now n → ⊥) (λ n. IsWithinText low high field.now n) }
{
    if !is_digits(field) {
        return None;
    }
    let n = value_up_to(u64::from(high), field)? as u32;
    if low <= n { Some(n) } else { None }
}
