ghost use Rattle.std.specs.Prelude.{◌≡◌, pos, IsTrue};
ghost use Rattle.std.specs.List.{list_all};
ghost use Rattle.text_terms.specs.Fields.{is_digit};
ghost use Rattle.project_terms.specs.Lines.{is_positive, spelled, counted, positive, negative, number, natural};

use crate::fields::is_word;
use text_fields::{are_digits, value_up_to};

// What a number beyond all limits of a project counts as.
const BEYOND: u64 = 1_125_899_906_842_624;

// Whether these are digits of which the first is not 0.
fn is_positive(digits: &[u8]) -> bool
    ensures { result ≡ is_positive digits.now }
{
    match digits {
        [] => false,
        [first, rest @ ..] => (b'1'..=b'9').contains(first) && are_digits(rest),
    }
}

// Whether these are digits as a number is written.
fn is_spelled(digits: &[u8]) -> bool
    ensures { result ≡ spelled digits.now }
{
    is_word(digits, b"0") || is_positive(digits)
}

// The value of digits, at most `BEYOND`.
fn count(digits: &[u8]) -> i64
    requires { IsTrue (list_all is_digit digits.now) }
    ensures { result ≡ pos (counted digits.now) }
{
    value_up_to(BEYOND, digits).unwrap_or(BEYOND) as i64
}

fn positive(digits: &[u8]) -> Option<i64>
    ensures { result ≡ positive digits.now }
{
    if is_spelled(digits) {
        Some(count(digits))
    } else {
        None
    }
}

fn negative(digits: &[u8]) -> Option<i64>
    ensures { result ≡ negative digits.now }
{
    if is_positive(digits) {
        Some(-count(digits))
    } else {
        None
    }
}

/// The number that a field writes in the one way that there is; one beyond all limits of a project counts as 2^50 or -2^50.
pub fn read_number(field: &[u8]) -> Option<i64>
    ensures { result ≡ number field.now }
{
    match field {
        [] => None,
        [first, digits @ ..] => {
            if *first == b'-' {
                negative(digits)
            } else {
                positive(field)
            }
        }
    }
}

/// The number where it is from `low` to `high`.
pub fn natural(low: u32, high: u32, number: i64) -> Option<u32>
    ensures { result ≡ natural low high number }
{
    if number < i64::from(low) || number > i64::from(high) {
        return None;
    }
    Some(number as u32)
}
