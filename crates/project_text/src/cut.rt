ghost use Rattle.std.specs.Prelude.{◌≡◌, ◌<◌, ◌≤◌, ◌++◌, length, take, slice_index, MatchOption};
ghost use Rattle.project_terms.specs.Texts.{IsInner, ended};

// The number of bytes before the first LF, or all.
fn line_end(text: &[u8]) -> usize
    ensures bound { result ≤ length text.now }
    ensures inner { IsInner (take result text.now) }
    ensures found { result < length text.now → slice_index text.now result ≡ 10 }
{
    let mut end = 0;
    while end < text.len() && text[end] != b'\n' {
        end += 1;
    }
    end
}

/// The first line of a text, without its LF, and what follows it; `None` exactly where the text has no LF.
pub fn split_line(text: &[u8]) -> Option<(&[u8], &[u8])>
    ensures { MatchOption result (IsInner text.now) (λ x. IsInner x.0.now × (text.now ≡ ended x.0.now ++ x.1.now)) }
{
    let end = line_end(text);
    if end < text.len() {
        Some((&text[..end], &text[end + 1..]))
    } else {
        None
    }
}
