ghost use Rattle.std.specs.Prelude.{◌≡◌, ◌≤◌, length, None, MatchOption};
ghost use Rattle.session_terms.specs.KeptChanges.{kept_named, is_below};
ghost use Rattle.edit_session.specs.Faults.{IsIndexOf, IsPlaceFor};

use crate::session::Session;
use grid_plane::Name;
use std::cmp::Ordering;

/// The index of the session of this editor.
pub fn index_of(sessions: &[Session], name: &Name) -> Option<usize>
    ensures { MatchOption result (kept_named sessions.now name.now ≡ None) (IsIndexOf name.now sessions.now) }
{
    for index in 0..sessions.len() {
        if sessions[index].is_named(name) {
            return Some(index);
        }
    }
    None
}

// Whether the first name comes before the second one.
fn is_below(name: &Name, other: &Name) -> bool
    ensures { result ≡ is_below name.now other.now }
{
    match name.bytes().cmp(other.bytes()) {
        Ordering::Less => true,
        _ => false,
    }
}

/// The index at which a session of this editor is to stand: that of the first one of a greater name.
pub fn place_of(sessions: &[Session], name: &Name) -> usize
    ensures within { result ≤ length sessions.now }
    ensures place { IsPlaceFor name.now sessions.now result }
{
    for index in 0..sessions.len() {
        if is_below(name, sessions[index].name()) {
            return index;
        }
    }
    sessions.len()
}
