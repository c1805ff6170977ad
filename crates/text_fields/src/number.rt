ghost use Rattle.std.specs.Prelude.{◌≡◌, ◌<◌, ◌≤◌, ◌^◌, Some, None, nat_le, ◌==◌, IsTrue, if◌then◌else◌};
ghost use Rattle.std.specs.List.{list_all};
ghost use Rattle.text_terms.specs.Fields.{is_digit};
ghost use Rattle.wkt_terms.specs.Numerals.{value_of, is_negative, unsigned, is_fraction, has_form, is_on_grid, signed, within_reach, number_in, number_of};
ghost use Rattle.text_fields.specs.Numbers.{meant};

use crate::bytes::is_digit;
use crate::coordinate::Coordinate;
use crate::runs::{Class, split_run};

/// The greatest coordinate, in grid units.
pub(crate) const REACH: u64 = 4_194_304;

/// What a numeral means on the grid.
#[derive(Clone, Copy)]
pub enum Number {
    /// A whole number within the reach.
    Whole(Coordinate),
    /// A digit behind the point is not 0.
    OffGrid,
    /// Whole, and beyond the reach.
    OutOfReach,
    /// Not of the form of a numeral.
    NoNumber,
}

/// Whether all bytes are digits.
pub fn are_digits(text: &[u8]) -> bool
    ensures { result ≡ list_all is_digit text.now }
{
    text.iter().all(|b| is_digit(*b))
}

/// The number that digits write, however many, if it is at most the limit.
#[tactic(auto, using(crate::proofs::Fronts::value_grows, crate::proofs::Fronts::value_goes_on))]
pub fn value_up_to(limit: u64, digits: &[u8]) -> Option<u64>
    requires small { limit < 2 ^ 60 }
    requires digits { IsTrue (list_all is_digit digits.now) }
    ensures { result ≡ (if nat_le (value_of digits.now) limit then Some (value_of digits.now) else None) }
{
    let mut n = 0;
    for b in digits {
        n = n * 10 + u64::from(*b - b'0');
        if n > limit {
            return None;
        }
    }
    Some(n)
}

fn are_zeros(text: &[u8]) -> bool
    ensures { result ≡ list_all (λ b. b == 48) text.now }
{
    text.iter().all(|b| *b == b'0')
}

fn is_negative(text: &[u8]) -> bool
    ensures { result ≡ is_negative text.now }
{
    match text {
        [] => false,
        [first, ..] => *first == b'-',
    }
}

// The numeral without the sign in front of it.
fn unsigned(text: &[u8]) -> &[u8]
    ensures { result.now ≡ unsigned text.now }
{
    match text {
        [] => text,
        [first, rest @ ..] => {
            if *first == b'+' || *first == b'-' {
                rest
            } else {
                text
            }
        }
    }
}

// Whether a text is nothing, or a point and digits.
fn is_fraction(text: &[u8]) -> bool
    ensures { result ≡ is_fraction text.now }
{
    match text {
        [] => true,
        [first, rest @ ..] => *first == b'.' && are_digits(rest),
    }
}

// Whether each digit behind the point is 0.
fn is_on_grid(fraction: &[u8]) -> bool
    ensures { result ≡ is_on_grid fraction.now }
{
    match fraction {
        [] => true,
        [_, rest @ ..] => are_zeros(rest),
    }
}

fn has_form(whole: &[u8], fraction: &[u8]) -> bool
    ensures { result ≡ has_form whole.now fraction.now }
{
    is_fraction(fraction) && (!whole.is_empty() || fraction.len() > 1)
}

/// The number with this sign.
pub(crate) fn signed(negative: bool, n: u32) -> Coordinate
    requires { n ≤ 4194304 }
    ensures { result ≡ signed negative n }
{
    let n = n as i32;
    Coordinate::new(if negative { -n } else { n })
}

fn within_reach(negative: bool, whole: &[u8]) -> Number
    requires { IsTrue (list_all is_digit whole.now) }
    ensures { meant result ≡ within_reach negative (value_of whole.now) }
{
    let Some(n) = value_up_to(REACH, whole) else {
        return Number::OutOfReach;
    };
    Number::Whole(signed(negative, n as u32))
}

fn number_in(negative: bool, whole: &[u8], fraction: &[u8]) -> Number
    requires { IsTrue (list_all is_digit whole.now) }
    ensures { meant result ≡ number_in negative whole.now fraction.now }
{
    if !has_form(whole, fraction) {
        return Number::NoNumber;
    }
    if !is_on_grid(fraction) {
        return Number::OffGrid;
    }
    within_reach(negative, whole)
}

/// What a numeral means: an optional sign, then digits, which may have a point before, among or behind them.
#[tactic(auto, using(crate::proofs::Fronts::front_has))]
pub fn read_number(text: &[u8]) -> Number
    ensures { meant result ≡ number_of text.now }
{
    let (whole, fraction) = split_run(Class::Digit, unsigned(text));
    number_in(is_negative(text), whole, fraction)
}
