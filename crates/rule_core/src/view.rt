ghost use Rattle.std.specs.Prelude.{◌≡◌, ◌<◌, [], ◌∷◌, ◌++◌, length, map, slice_get, Some, None, IsSome, MatchOption, IfOk, OnOk, OnErr};
ghost use Rattle.std.specs.Ordering.{MatchOrdering};
ghost use Rattle.plane_terms.specs.Lists.{Every};
ghost use Rattle.topology_terms.specs.Feature as terms;

use grid_plane::NoMemory;
use shape::Feature;
use std::alloc::Global;
use std::cmp::Ordering;
use std::marker::Model;

/// The features that a rule is shown for a subject, ascending by handle.
#[derive(Drop)]
pub struct View<'a> {
    features: Vec<&'a Feature>,
}

impl<'a> Model for View<'a> {
    ghost use Rattle.std.specs.Prelude.{List, map};
    ghost use Rattle.topology_terms.specs.Feature as terms;

    ghost Value = { List terms.Feature };

    ghost view = { λ v. map (λ f. f.now) v.features.items };

    ghost invariant = { λ v. terms.IsAscending (map (λ f. f.now) v.features.items) };
}

/// How the first handle stands to the second.
pub fn compare_handles(m: u32, n: u32) -> Ordering
    ensures { MatchOrdering result (m < n) (m ≡ n) (n < m) }
{
    if m < n {
        return Ordering::Less;
    }
    if n < m {
        return Ordering::Greater;
    }
    Ordering::Equal
}

// The feature of this handle.
fn find_in<'a>(features: &[&'a Feature], handle: u32) -> Option<&'a Feature>
    requires { terms.IsAscending (map (λ f. f.now) features.now) }
    ensures { MatchOption result (terms.feature_at (map (λ f. f.now) features.now) handle ≡ None) (λ f. terms.feature_at (map (λ f. f.now) features.now) handle ≡ Some f.now) }
{
    match features.binary_search_by(|f| compare_handles(f.handle(), handle)) {
        Ok(i) => Some(features[i]),
        Err(_) => None,
    }
}

impl<'a> View<'a> {
    /// No feature, with room for so many.
    pub fn with_room(alloc: Global, room: usize) -> Result<View<'a>, NoMemory>
        ensures { IfOk result (λ v. v ≡ []) }
    {
        Ok(View {
            features: Vec::with_capacity(alloc, room)?,
        })
    }

    /// How many features there are.
    pub fn len(&self) -> usize
        ensures { result ≡ length self.now }
    {
        self.features.len()
    }

    /// The feature at this place of the list, from 0.
    pub fn feature(&self, i: usize) -> &'a Feature
        requires { i < length self.now }
        ensures { slice_get self.now i ≡ Some result.now }
    {
        self.features[i]
    }

    /// The feature of this handle, which is there. Takes steps by the logarithm of their number.
    pub fn subject(&self, handle: u32) -> &'a Feature
        requires { IsSome (terms.feature_at self.now handle) }
        ensures { terms.feature_at self.now handle ≡ Some result.now }
    {
        find_in(&self.features, handle).unwrap()
    }

    /// Puts a feature last, whose handle is above all others; where memory runs out the list stays as it was.
    pub fn push(&mut self, f: &'a Feature) -> Result<(), NoMemory>
        requires { Every (λ (g : terms.Feature). g.handle < f.now.handle) self.old }
        ensures ok { OnOk result (self.new ≡ self.old ++ f.now ∷ []) }
        ensures err { OnErr result (self.new ≡ self.old) }
    {
        self.features.push(f)?;
        Ok(())
    }
}
