ghost use Rattle.std.specs.Prelude.{◌≡◌, ℤ, MatchOption, IsTrue};
ghost use Rattle.std.specs.List.{list_all};
ghost use Rattle.text_terms.specs.Fields.{is_digit};
ghost use Rattle.text_terms.specs.Numbers.{IsSigned};
ghost use Rattle.wkt_terms.specs.Numerals.{value_of, is_negative};
ghost use Rattle.script_text.specs.Wholes.{behind_minus, whole_of, IsFor};

use crate::number::is_digits;
use grid_plane::REACH;
use text_fields::{Coordinate, value_up_to};

/// A signed whole number of any size, by whether it lies within the reach.
#[derive(Clone, Copy)]
pub enum Whole {
    /// It lies within the reach, and is this coordinate.
    Within(Coordinate),
    /// It lies beyond the reach.
    Beyond,
}

// Whether a `-` stands in front, and what stands behind it.
fn split_minus(field: &[u8]) -> (bool, &[u8])
    ensures negative { result.0 ≡ is_negative field.now }
    ensures behind { result.1.now ≡ behind_minus field.now }
{
    match field {
        [] => (false, field),
        [first, rest @ ..] => {
            if *first == b'-' {
                (true, rest)
            } else {
                (false, field)
            }
        }
    }
}

// The whole number of these digits, with a `-` before them or without.
fn whole_of(negative: bool, digits: &[u8]) -> Whole
    requires { IsTrue (list_all is_digit digits.now) }
    ensures { result ≡ whole_of negative (value_of digits.now) }
{
    let Some(n) = value_up_to(REACH as u64, digits) else {
        return Whole::Beyond;
    };
    let n = n as i32;
    Whole::Within(Coordinate::new(if negative { -n } else { n }))
}

/// The whole number that a field writes; `None` exactly where the field is not digits, with a `-` before them or without.
#[tactic(auto, using(crate::proofs::Wholes::read, crate::proofs::Wholes::unread))]
pub fn read_whole(field: &[u8]) -> Option<Whole>
    ensures { MatchOption result ((z : ℤ) → IsSigned field.now z → ⊥) (λ w. IsFor w field.now) }
{
    let (negative, digits) = split_minus(field);
    if !is_digits(digits) {
        return None;
    }
    Some(whole_of(negative, digits))
}
