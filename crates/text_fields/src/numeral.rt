ghost use Rattle.std.specs.Prelude.{◌≡◌, ◌<◌, IfSome};
ghost use Rattle.text_terms.specs.Fields.{is_digit};
ghost use Rattle.text_terms.specs.Numbers.{value_from};
ghost use Rattle.wkt_terms.specs.Numerals.{Whole, value_of, number_of};
ghost use Rattle.wkt_terms.specs.Runs.{is_number_byte, front_of, behind};
ghost use Rattle.text_fields.specs.Numbers.{meant, has_number_byte, IsShort};

use crate::bytes::{is_digit, is_number_byte};
use crate::coordinate::Coordinate;
use crate::number::{Number, REACH, read_number, signed};
use crate::runs::{Class, split_run};

// What the digits at the front are worth, or the first of very many, and what follows these.
#[inline(always)]
fn short_value(digits: &[u8]) -> (u32, &[u8])
    ensures bound { result.0 < 10000000 }
    ensures value { value_from result.0 (front_of is_digit result.1.now) ≡ value_of (front_of is_digit digits.now) }
    ensures behind { behind is_digit result.1.now ≡ behind is_digit digits.now }
{
    let mut n: u32 = 0;
    let mut rest = digits;
    while let [b, more @ ..] = rest {
        if !is_digit(*b) || n >= 1_000_000 {
            break;
        }
        n = n * 10 + u32::from(*b - b'0');
        rest = more;
    }
    (n, rest)
}

// Whether a text begins with a digit, a sign or a point.
#[inline(always)]
fn has_number_byte(text: &[u8]) -> bool
    ensures { result ≡ has_number_byte text.now }
{
    match text {
        [] => false,
        [first, ..] => is_number_byte(*first),
    }
}

// A few digits, and what follows them, where the numeral ends there.
#[inline(always)]
fn short_digits(negative: bool, digits: &[u8]) -> Option<(Coordinate, &[u8])>
    ensures { IfSome result (λ x. IsShort negative digits.now x.0 x.1.now) }
{
    let (n, rest) = short_value(digits);
    if rest.len() == digits.len() || has_number_byte(rest) || u64::from(n) > REACH {
        return None;
    }
    Some((signed(negative, n), rest))
}

// The whole number at the front, where it has few digits and at most a minus sign before them.
#[tactic(auto, using(crate::proofs::Short::plain, crate::proofs::Short::minus))]
#[inline(always)]
fn short_whole(text: &[u8]) -> Option<(Coordinate, &[u8])>
    ensures { IfSome result (λ x. (number_of (front_of is_number_byte text.now) ≡ Whole x.0) × (x.1.now ≡ behind is_number_byte text.now)) }
{
    match text {
        [] => None,
        [first, digits @ ..] => {
            if *first == b'-' {
                short_digits(true, digits)
            } else {
                short_digits(false, text)
            }
        }
    }
}

// What any run at the front means; it stands apart, so that the short way is all that is put in line.
#[inline(never)]
fn any_number(text: &[u8]) -> (Number, &[u8])
    ensures number { meant result.0 ≡ number_of (front_of is_number_byte text.now) }
    ensures rest { result.1.now ≡ behind is_number_byte text.now }
{
    let (numeral, rest) = split_run(Class::Number, text);
    (read_number(numeral), rest)
}

/// What the longest run of digits, signs and points at the front means, and what follows it. In line, since it is asked for each
/// coordinate of a script.
#[inline(always)]
pub fn next_number(text: &[u8]) -> (Number, &[u8])
    ensures number { meant result.0 ≡ number_of (front_of is_number_byte text.now) }
    ensures rest { result.1.now ≡ behind is_number_byte text.now }
{
    if let Some((whole, rest)) = short_whole(text) {
        return (Number::Whole(whole), rest);
    }
    any_number(text)
}
