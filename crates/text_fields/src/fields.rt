ghost use Rattle.std.specs.Prelude.{◌≡◌, ◌≤◌, ◌<◌, ◌↔◌, ◌==◌, not, true, [], ◌∷◌, ◌++◌, length, take, drop, slice_index, IsTrue, MatchOption};
ghost use Rattle.std.specs.List.{list_all};
ghost use Rattle.text_terms.specs.Fields.{skip_blanks, front_field, behind_field, skip_end_blanks, Begins, HasFields};

use crate::bytes::is_blank;

/// The text without the blanks at its front.
pub fn skip_blanks(text: &[u8]) -> &[u8]
    ensures { result.now ≡ skip_blanks text.now }
{
    let mut rest = text;
    while let [b, after @ ..] = rest {
        if !is_blank(*b) {
            break;
        }
        rest = after;
    }
    rest
}

/// The text without the blanks at its end.
pub fn skip_end_blanks(text: &[u8]) -> &[u8]
    ensures { result.now ≡ skip_end_blanks text.now }
{
    let mut end = text.len();
    while end > 0 && is_blank(text[end - 1]) {
        end -= 1;
    }
    &text[..end]
}

// The number of bytes before the first blank, or all.
fn field_end(text: &[u8]) -> usize
    ensures bound { result ≤ length text.now }
    ensures front { front_field text.now ≡ take result text.now }
    ensures behind { behind_field text.now ≡ drop result text.now }
{
    let mut end = 0;
    while end < text.len() && !is_blank(text[end]) {
        end += 1;
    }
    end
}

/// What stands before the first blank, and from there on.
pub fn split_field(text: &[u8]) -> (&[u8], &[u8])
    ensures field { result.0.now ≡ front_field text.now }
    ensures rest { result.1.now ≡ behind_field text.now }
{
    let end = field_end(text);
    (&text[..end], &text[end..])
}

/// The first field of a text, empty where it has none, and what follows it.
pub fn next_field(text: &[u8]) -> (&[u8], &[u8])
    ensures field { result.0.now ≡ front_field (skip_blanks text.now) }
    ensures rest { result.1.now ≡ behind_field (skip_blanks text.now) }
{
    split_field(skip_blanks(text))
}

// Whether a text is nothing, or begins with a blank.
fn is_end(text: &[u8]) -> bool
    ensures { IsTrue result ↔ (front_field text.now ≡ []) }
{
    match text {
        [] => true,
        [first, ..] => is_blank(*first),
    }
}

// What follows this word, where the text has it before the first blank. It looks no further than to the first byte that differs.
fn behind_front<'a>(text: &'a [u8], word: &[u8]) -> Option<&'a [u8]>
    ensures { MatchOption result (front_field text.now ≡ word.now → ⊥)
        (λ rest. (front_field text.now ≡ word.now) × (rest.now ≡ behind_field text.now)) }
{
    let mut rest = text;
    let mut letters = word;
    while let [c, others @ ..] = letters {
        let [b, more @ ..] = rest else {
            return None;
        };
        if *b != *c || is_blank(*b) {
            return None;
        }
        rest = more;
        letters = others;
    }
    if is_end(rest) { Some(rest) } else { None }
}

/// What follows this word, where it is the first field of the text.
pub fn behind_word<'a>(text: &'a [u8], word: &[u8]) -> Option<&'a [u8]>
    ensures { MatchOption result (front_field (skip_blanks text.now) ≡ word.now → ⊥)
        (λ rest. (front_field (skip_blanks text.now) ≡ word.now) × (rest.now ≡ behind_field (skip_blanks text.now))) }
{
    behind_front(skip_blanks(text), word)
}

// The number of bytes before the first colon, or all.
fn colon_in(text: &[u8]) -> usize
    ensures bound { result ≤ length text.now }
    ensures before { list_all (λ b. not (b == 58)) (take result text.now) ≡ true }
    ensures found { result < length text.now → slice_index text.now result ≡ 58 }
{
    let mut end = 0;
    while end < text.len() && text[end] != b':' {
        end += 1;
    }
    end
}

/// What stands before the first colon, and behind it; `None` exactly where the text has no colon.
pub fn split_colon(text: &[u8]) -> Option<(&[u8], &[u8])>
    ensures { MatchOption result (list_all (λ b. not (b == 58)) text.now ≡ true)
        (λ x. (list_all (λ b. not (b == 58)) x.0.now ≡ true) × (text.now ≡ x.0.now ++ 58 ∷ x.1.now)) }
{
    let end = colon_in(text);
    if end < text.len() {
        Some((&text[..end], &text[end + 1..]))
    } else {
        None
    }
}

/// Whether no field is left.
pub fn is_over(text: &[u8]) -> bool
    ensures { IsTrue result ↔ Begins text.now [] [] }
{
    skip_blanks(text).is_empty()
}

/// Whether the word is the one field of the text.
pub fn is_only(text: &[u8], word: &[u8]) -> bool
    ensures { IsTrue result ↔ HasFields text.now (word.now ∷ []) }
{
    let Some(rest) = behind_word(text, word) else {
        return false;
    };
    is_over(rest)
}
