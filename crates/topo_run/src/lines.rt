ghost use Rattle.std.specs.Prelude.{◌≡◌, ◌<◌, ◌≤◌, [], ◌∷◌, ◌++◌, length, take, drop, slice_index, MatchOption};
ghost use Rattle.text_terms.specs.Lines.{lines_of, lines_from, without_cr};
ghost use Rattle.topo_run.specs.Replayers.{HasNoLf};

use memchr::memchr;

/// The line without the CR at its end.
#[tactic(auto, using(crate::proofs::Texts::cuts))]
pub fn without_cr(line: &[u8]) -> &[u8]
    ensures { result.now ≡ without_cr line.now }
{
    let len = line.len();
    if len > 0 && line[len - 1] == b'\r' {
        &line[..len - 1]
    } else {
        line
    }
}

/// What comes before the first LF of a text, and what follows it.
pub fn split_at_lf(text: &[u8]) -> Option<(&[u8], &[u8])>
    ensures { MatchOption result (HasNoLf text.now) (λ parts. HasNoLf parts.0.now × (text.now ≡ parts.0.now ++ 10 ∷ parts.1.now) × (length parts.1.now < length text.now)) }
{
    let end = lf_of(text);
    if end < text.len() {
        Some((&text[..end], &text[end + 1..]))
    } else {
        None
    }
}

// The number of bytes before the first LF, or all.
fn lf_of(text: &[u8]) -> usize
    ensures bound { result ≤ length text.now }
    ensures before { HasNoLf (take result text.now) }
    ensures found { result < length text.now → slice_index text.now result ≡ 10 }
{
    match memchr(b'\n', text) {
        Some(end) => end,
        None => text.len(),
    }
}

/// The first line of a text, and what follows it.
pub fn split_line(text: &[u8], whole: bool) -> Option<(&[u8], &[u8])>
    ensures { MatchOption result (lines_of whole text.now ≡ [])
        (λ parts. (lines_of whole text.now ≡ parts.0.now ∷ lines_of whole parts.1.now) × (length parts.1.now < length text.now)) }
{
    let end = line_end(text, whole);
    if end < text.len() {
        Some((without_cr(&text[..end]), &text[end + 1..]))
    } else if whole && end > 0 {
        Some((without_cr(text), &[]))
    } else {
        None
    }
}

// The number of bytes before the first LF, or all.
fn line_end(text: &[u8], whole: bool) -> usize
    ensures bound { result ≤ length text.now }
    ensures same { lines_of whole text.now ≡ lines_from whole (take result text.now) (drop result text.now) }
    ensures found { result < length text.now → slice_index text.now result ≡ 10 }
{
    lf_of(text)
}
