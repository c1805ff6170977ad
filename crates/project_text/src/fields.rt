ghost use Rattle.std.specs.Prelude.{◌≡◌, ◌<◌, ◌≤◌, bytes_eq, false, [], ◌∷◌, length, take, drop, slice_index, MatchOption};
ghost use Rattle.project_terms.specs.Lines.{fields, fields_from, joined};
ghost use Rattle.project_terms.specs.Verdicts.{is_none};
ghost use Rattle.project_text.specs.Reading.{left, is_single};

/// Whether the field is this word.
pub fn is_word(field: &[u8], word: &[u8]) -> bool
    ensures { result ≡ bytes_eq field.now word.now }
{
    field == word
}

// The number of bytes before the first space, or all.
fn space_in(text: &[u8]) -> usize
    ensures bound { result ≤ length text.now }
    ensures same { fields text.now ≡ fields_from (take result text.now) (drop result text.now) }
    ensures found { result < length text.now → slice_index text.now result ≡ 32 }
{
    let mut end = 0;
    while end < text.len() && text[end] != b' ' {
        end += 1;
    }
    end
}

/// The first field of a line, and what follows it: nothing, or a space and the other fields.
pub fn split_field(line: &[u8]) -> (&[u8], &[u8])
    ensures parts { fields line.now ≡ result.0.now ∷ left result.1.now }
    ensures within { length result.1.now ≤ length line.now }
{
    let end = space_in(line);
    (&line[..end], &line[end..])
}

/// The field that comes next, and what follows it; `None` exactly where no field is left.
pub fn next_field(rest: &[u8]) -> Option<(&[u8], &[u8])>
    ensures { MatchOption result (left rest.now ≡ []) (λ x. (left rest.now ≡ x.0.now ∷ left x.1.now) × (length x.1.now < length rest.now)) }
{
    match rest {
        [] => None,
        [_, line @ ..] => Some(split_field(line)),
    }
}

/// Whether no field is left.
pub fn is_over(rest: &[u8]) -> bool
    ensures { result ≡ is_none (left rest.now) }
{
    next_field(rest).is_none()
}

/// The field that is all that is left.
pub fn last_field(rest: &[u8]) -> Option<&[u8]>
    ensures { MatchOption result (is_single (left rest.now) ≡ false) (λ f. left rest.now ≡ f.now ∷ []) }
{
    let (field, after) = next_field(rest)?;
    if is_over(after) { Some(field) } else { None }
}

/// What is left of a line, where a field is.
pub fn rest_of(rest: &[u8]) -> Option<&[u8]>
    ensures { MatchOption result (left rest.now ≡ []) (λ x. left rest.now ≡ fields x.now) }
{
    match rest {
        [] => None,
        [_, line @ ..] => Some(line),
    }
}
