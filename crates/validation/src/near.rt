ghost use Rattle.std.specs.Prelude.{◌≡◌, ◌<◌, ◌≤◌, ◌+◌, ◌⊎◌, ℕ, [], ◌∷◌, filter, length, None, Some, true, false, IfSome, IsSomeAnd, IfOk, MatchOption};
ghost use Rattle.std.specs.Option.{option_to_list};
ghost use Rattle.std.specs.List.Sorted.{IsStrictlyIncreasing};
ghost use Rattle.topology_terms.specs.Feature.{feature_at, env, IsAscending};
ghost use Rattle.topology_terms.specs.Feature as terms;
ghost use Rattle.topology_terms.specs.Together.{ends};
ghost use Rattle.validation_laws.specs.Parts.{live_of};
ghost use Rattle.validation_laws.specs.Views.{IsView, counts_at, has_enough, open_of};
ghost use Rattle.grid_index.specs.Steps.{most_steps};
ghost use Rattle.validation.specs.Asked.{view_steps};
ghost use Rattle.validation.specs.Ends.{AreAtEnds};
ghost use Rattle.validation.specs.Placed.{ArePlaced};

use crate::dirty::{places_across, places_up};
use crate::ends::LineEnds;
use feature_store::Features;
use grid_index::{Aim, Index, Meter, once_each};
use grid_plane::{GridPoint, NoMemory, Rect};
use rule_core::{RuleRow, View};
use shape::Feature;
use std::alloc::Global;
use std::marker::Model;

/// Features in the order of handles, and an index in which each of them stands.
#[derive(Drop)]
pub struct FeatureIndex<'a, M: Meter> {
    features: &'a Features<'a>,
    index: &'a Index<M>,
}

impl<'a, M: Meter> Model for FeatureIndex<'a, M> {
    ghost use Rattle.validation.specs.Placed.{ArePlaced};
    ghost use Rattle.validation.specs.Projects.{IndexedFeatures};

    ghost Value = { IndexedFeatures };

    ghost view = { λ x. record { features = x.features.now; placed = x.index.now } };

    ghost invariant = { λ x. ArePlaced x.index.now x.features.now };
}

// So many features are many to look at.
const MANY: u64 = 32;

fn product(a: u64, b: u64, c: u64) -> u64 {
    a.saturating_mul(b).saturating_mul(c)
}

// Whether many of so many features lie in the rectangle, were they spread evenly over the whole: many along x, along y, or
// together. No answer rests on it, only how long an answer takes.
fn is_crowded(r: &Rect, whole: &Rect, count: u64) -> bool {
    let (wide, high) = (places_across(r), places_up(r));
    let (all_wide, all_high) = (places_across(whole), places_up(whole));
    product(wide, wide, count) > product(all_wide, all_wide, MANY * MANY)
        || product(high, high, count) > product(all_high, all_high, MANY * MANY)
        || product(wide, high, count) > product(all_wide, all_high, MANY)
}

// The live feature of this handle, if the aim touches its envelope.
fn find_touched<'a, A: Aim>(features: &'a Features<'a>, handle: u32, aim: &A) -> Option<&'a Feature>
    requires { IsAscending features.now }
    ensures touched { MatchOption result (filter (λ (g : terms.Feature). A.touching aim.now (env g)) (option_to_list (feature_at features.now handle)) ≡ []) (λ f. filter (λ (g : terms.Feature). A.touching aim.now (env g)) (option_to_list (feature_at features.now handle)) ≡ f.now ∷ []) }
    ensures live { IfSome result (λ f. feature_at features.now handle ≡ Some f.now) }
{
    let f = features.get(handle)?;
    if aim.touches(&f.shape().env()) {
        Some(f)
    } else {
        None
    }
}

// The live features of these handles whose envelope the aim touches.
fn view_among<'a, A: Aim>(
    alloc: Global,
    features: &'a Features<'a>,
    handles: &[u32],
    aim: &A,
) -> Result<View<'a>, NoMemory>
    requires features { IsAscending features.now }
    requires handles { IsStrictlyIncreasing handles.now }
    ensures { IfOk result (λ v. v ≡ filter (λ (g : terms.Feature). A.touching aim.now (env g)) (live_of features.now handles.now)) }
{
    let mut view = View::with_room(alloc, handles.len())?;
    for handle in handles {
        if let Some(f) = find_touched(features, *handle, aim) {
            view.push(f)?;
        }
    }
    Ok(view)
}

impl<'a, M: Meter> FeatureIndex<'a, M> {
    /// These features, each of which stands in the index.
    pub fn of(features: &'a Features<'a>, index: &'a Index<M>) -> FeatureIndex<'a, M>
        requires { ArePlaced index.now features.now }
        ensures { result ≡ record { features = features.now; placed = index.now } }
    {
        FeatureIndex { features, index }
    }

    /// The feature of this handle. Takes steps by the logarithm of their number.
    pub fn find(&self, handle: u32) -> Option<&'a Feature>
        requires { IsAscending self.now.features }
        ensures { MatchOption result (feature_at self.now.features handle ≡ None) (λ f. feature_at self.now.features handle ≡ Some f.now) }
    {
        self.features.get(handle)
    }

    // Whether many features may lie near this one. It takes one step at most.
    fn is_amid_many(&self, f: &Feature, meter: &mut M) -> bool
        ensures rises { M.taken meter.old ≤ M.taken meter.new }
        ensures steps { M.taken meter.new ≤ M.taken meter.old + 1 }
    {
        let count = self.features.slots().len() as u64;
        match self.index.reach(meter) {
            Some(whole) => is_crowded(&f.shape().env(), &whole, count),
            None => false,
        }
    }

    // The features whose envelope the aim touches. Their handles are put in place of those of the list, which saves its room. The meter
    // counts the steps in the index.
    fn view_about<A: Aim>(
        &self,
        alloc: Global,
        aim: &A,
        found: &mut Vec<u32>,
        meter: &mut M,
    ) -> Result<View<'a>, NoMemory>
        requires { IsAscending self.now.features }
        ensures view { IfOk result (λ v. v ≡ filter (λ (g : terms.Feature). A.touching aim.now (env g)) self.now.features) }
        ensures rises { M.taken meter.old ≤ M.taken meter.new }
        ensures steps { (s : ℕ) → M.taken meter.new ≤ M.taken meter.old + most_steps s (A.window aim.now) self.now.placed }
    {
        found.clear();
        self.index.add_about(aim, found, meter)?;
        once_each(alloc, found)?;
        view_among(alloc, self.features, found, aim)
    }

    /// The features whose envelope meets the subject's. Looks only at those that the index gives for it, and puts their handles in
    /// place of those of the list. The meter counts the steps in the index.
    pub fn view_of(
        &self,
        alloc: Global,
        f: &Feature,
        found: &mut Vec<u32>,
        meter: &mut M,
    ) -> Result<View<'a>, NoMemory>
        requires { IsAscending self.now.features }
        ensures view { IfOk result (λ v. IsView self.now.features f.now v) }
        ensures rises { M.taken meter.old ≤ M.taken meter.new }
        ensures steps { (s : ℕ) → M.taken meter.new ≤ M.taken meter.old + most_steps s (env f.now) self.now.placed }
    {
        self.view_about(alloc, &f.shape().env(), found, meter)
    }

    // The features whose envelope holds an end of the line, which has some. The bound of its steps in the index is that for its envelope.
    fn view_at_ends(
        &self,
        alloc: Global,
        f: &Feature,
        found: &mut Vec<u32>,
        meter: &mut M,
    ) -> Result<View<'a>, NoMemory>
        requires ascending { IsAscending self.now.features }
        requires live { feature_at self.now.features f.now.handle ≡ Some f.now }
        requires ends { 0 < length (ends f.now) }
        ensures view { IfOk result (λ v. AreAtEnds self.now.features f.now [] (ends f.now) v) }
        ensures rises { M.taken meter.old ≤ M.taken meter.new }
        ensures steps { (s : ℕ) → M.taken meter.new ≤ M.taken meter.old + most_steps s (env f.now) self.now.placed }
    {
        self.view_about(alloc, &LineEnds::of(f.shape()), found, meter)
    }

    /// What lies near the line, or, where much may lie near it, only what is at its ends, of which it has some. Looks only at what the
    /// index gives for its envelope or its ends. The meter counts the steps in the index: those of a
    /// question about its envelope, and one to learn whether much may lie near it.
    pub(crate) fn view_near_or_at_ends(
        &self,
        alloc: Global,
        f: &Feature,
        found: &mut Vec<u32>,
        meter: &mut M,
    ) -> Result<View<'a>, NoMemory>
        requires ascending { IsAscending self.now.features }
        requires live { feature_at self.now.features f.now.handle ≡ Some f.now }
        requires ends { 0 < length (ends f.now) }
        ensures view { IfOk result (λ v. IsView self.now.features f.now v ⊎ AreAtEnds self.now.features f.now [] (ends f.now) v) }
        ensures rises { M.taken meter.old ≤ M.taken meter.new }
        ensures steps { (s : ℕ) → M.taken meter.new ≤ M.taken meter.old + view_steps s (env f.now) self.now.placed }
    {
        if self.is_amid_many(f, meter) {
            self.view_at_ends(alloc, f, found, meter)
        } else {
            self.view_of(alloc, f, found, meter)
        }
    }

    /// The line, and of the features whose envelope holds an end of it those of the known handles and all that are at an open end: the
    /// first and the last of two, as these say. The handles that are looked at are put with the known ones. The bound of its steps in the
    /// index is that for its envelope.
    pub(crate) fn view_at_open_ends(
        &self,
        alloc: Global,
        f: &Feature,
        known: &mut Vec<u32>,
        first: bool,
        last: bool,
        meter: &mut M,
    ) -> Result<View<'a>, NoMemory>
        requires ascending { IsAscending self.now.features }
        requires live { feature_at self.now.features f.now.handle ≡ Some f.now }
        requires ends { 0 < length (ends f.now) }
        requires known { IsStrictlyIncreasing known.old.items }
        ensures view { IfOk result (λ v. AreAtEnds self.now.features f.now (live_of self.now.features known.old.items) (open_of (ends f.now) first last) v) }
        ensures rises { M.taken meter.old ≤ M.taken meter.new }
        ensures steps { (s : ℕ) → M.taken meter.new ≤ M.taken meter.old + most_steps s (env f.now) self.now.placed }
    {
        let aim = LineEnds::with_open(f.shape(), first, last);
        self.index.add_about(&aim, known, meter)?;
        known.push(f.handle())?;
        once_each(alloc, known)?;
        view_among(alloc, self.features, known, &LineEnds::of(f.shape()))
    }

    // Whether the feature of this handle is there and counts for the rule at the place.
    fn counts_at(&self, row: &RuleRow, handle: u32, place: GridPoint) -> bool
        requires { IsAscending self.now.features }
        ensures one { result ≡ true → IsSomeAnd (feature_at self.now.features handle) (λ g. counts_at row.now g place ≡ true) }
        ensures none { result ≡ false → IfSome (feature_at self.now.features handle) (λ g. counts_at row.now g place ≡ false) }
    {
        match self.features.get(handle) {
            Some(g) => row.counts_at(g, place),
            None => false,
        }
    }

    /// Whether the features of these handles are enough for the rule at the place.
    pub(crate) fn are_enough(&self, row: &RuleRow, handles: &[u32], place: GridPoint) -> bool
        requires { IsAscending self.now.features }
        ensures { result ≡ has_enough row.now (live_of self.now.features handles.now) place }
    {
        let mut count = 0;
        for handle in handles {
            if self.counts_at(row, *handle, place) {
                count += 1;
            }
        }
        count >= row.enough()
    }
}
