ghost use Rattle.std.specs.Prelude.{◌≡◌, ◌≤◌, length, take, drop};
ghost use Rattle.wkt_terms.specs.Runs.{front_of, behind, spells};
ghost use Rattle.text_fields.specs.Classes.{has};

use crate::bytes::{is_digit, is_letter, is_number_byte, lower};

/// What the bytes of a run are.
#[derive(Clone, Copy)]
pub enum Class {
    /// ASCII letters.
    Letter,
    /// Decimal digits.
    Digit,
    /// Digits, signs and points.
    Number,
}

impl Class {
    fn has(self, b: u8) -> bool
        ensures { result ≡ has self b }
    {
        match self {
            Class::Letter => is_letter(b),
            Class::Digit => is_digit(b),
            Class::Number => is_number_byte(b),
        }
    }
}

// The length of the run of a class at the front.
#[tactic(auto, using(crate::proofs::Fronts::front_goes_on, crate::proofs::Fronts::behind_goes_on, crate::proofs::Fronts::front_stops, crate::proofs::Fronts::behind_stops))]
fn run_len(class: Class, text: &[u8]) -> usize
    ensures bound { result ≤ length text.now }
    ensures front { front_of (has class) text.now ≡ take result text.now }
    ensures behind { behind (has class) text.now ≡ drop result text.now }
{
    let mut end = 0;
    while end < text.len() && class.has(text[end]) {
        end += 1;
    }
    end
}

/// The longest run of bytes of a class at the front of a text, and what follows it.
pub fn split_run(class: Class, text: &[u8]) -> (&[u8], &[u8])
    ensures front { result.0.now ≡ front_of (has class) text.now }
    ensures behind { result.1.now ≡ behind (has class) text.now }
{
    let end = run_len(class, text);
    (&text[..end], &text[end..])
}

/// Whether a text is a word, given in lower case, in any case.
pub fn spells(text: &[u8], word: &[u8]) -> bool
    ensures { result ≡ spells text.now word.now }
{
    let mut rest = text;
    let mut letters = word;
    while let [b, more @ ..] = rest {
        let [c, others @ ..] = letters else {
            return false;
        };
        if lower(*b) != *c {
            return false;
        }
        rest = more;
        letters = others;
    }
    letters.is_empty()
}
