ghost use Rattle.std.specs.Prelude.{◌≡◌, ℕ, Some, None, nat_le, IsTrue, MatchOption, if◌then◌else◌};
ghost use Rattle.std.specs.List.{list_all};
ghost use Rattle.text_terms.specs.Fields.{is_digit};
ghost use Rattle.text_terms.specs.Numbers.{IsWithinText};
ghost use Rattle.wkt_terms.specs.Numerals.{value_of};
ghost use Rattle.script_text.specs.Wholes.{is_digits};

use text_fields::are_digits;

fn is_digits(text: &[u8]) -> bool
    ensures { result ≡ is_digits text.now }
{
    !text.is_empty() && are_digits(text)
}

// The number that digits write, however many, if it is at most the limit.
#[tactic(auto, using(text_fields::proofs::Fronts::value_grows, text_fields::proofs::Fronts::value_goes_on))]
fn value_up_to(limit: u64, digits: &[u8]) -> Option<u64>
    requires { IsTrue (list_all is_digit digits.now) }
    ensures { result ≡ (if nat_le (value_of digits.now) limit then Some (value_of digits.now) else None) }
{
    let mut n: u128 = 0;
    for b in digits {
        n = n * 10 + u128::from(*b - b'0');
        if n > u128::from(limit) {
            return None;
        }
    }
    Some(n as u64)
}

/// The number that a word writes, if it is from `low` to `high`; zeros in front are free.
#[tactic(auto, using(script_text::proofs::Numbers::within, script_text::proofs::Numbers::not_digits, script_text::proofs::Numbers::too_high, script_text::proofs::Numbers::too_low))]
pub fn number_within(word: &[u8], low: u64, high: u64) -> Option<u64>
    ensures { MatchOption result ((n : ℕ) → IsWithinText low high word.now n → ⊥) (λ n. IsWithinText low high word.now n) }
{
    if !is_digits(word) {
        return None;
    }
    let n = value_up_to(high, word)?;
    if low <= n { Some(n) } else { None }
}
