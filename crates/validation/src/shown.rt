ghost use Rattle.std.specs.Prelude.{◌≡◌, ◌<◌, ◌≤◌, ◌+◌, ℕ, length, true, Some, IfOk};
ghost use Rattle.std.specs.List.{list_any};
ghost use Rattle.std.specs.List.Sorted.{IsStrictlyIncreasing};
ghost use Rattle.topology_terms.specs.Feature.{feature_at, env, IsAscending};
ghost use Rattle.topology_terms.specs.Together.{ends};
ghost use Rattle.validation_laws.specs.Parts.{live_of};
ghost use Rattle.grid_index.specs.Steps.{most_steps};
ghost use Rattle.validation.specs.Asked.{view_steps};
ghost use Rattle.validation.specs.Ends.{lacks_at, looks_beyond, shows_at_ends, IsShownFor};
ghost use Rattle.validation.specs.Parted.{rules_of};
ghost use Rattle.validation.specs.Parted as terms;

use crate::near::FeatureIndex;
use crate::parts::RulePart;
use grid_index::{Meter, once_each};
use grid_plane::{GridPoint, NoMemory};
use rule_core::{RuleRow, View, Work};
use shape::Feature;
use std::alloc::Global;

// So many features are many to be shown at the ends of a line.
const MANY: usize = 16;

// Whether one of the rules judges the feature by more than what is at its ends.
fn look_beyond_ends(parts: &[RulePart], f: &Feature) -> bool
    ensures { result ≡ list_any (λ (p : terms.RulePart). looks_beyond f.now p.rule) parts.now }
{
    parts.iter().any(|p| p.looks_beyond_ends(f))
}

// Whether what is at the ends of the feature is all that the rules that judge it ask for.
fn is_shown_at_ends(parts: &[RulePart], f: &Feature) -> bool
    ensures { result ≡ shows_at_ends (rules_of parts.now) f.now }
{
    f.shape().end_count() > 0 && !look_beyond_ends(parts, f)
}

// The handles that are kept for the ends of a line of two ends.
fn known_at_ends(alloc: Global, f: &Feature, work: &mut Work) -> Result<Vec<u32>, NoMemory>
    ensures ascending { IfOk result (λ v. IsStrictlyIncreasing v.items) }
    ensures two { IfOk result (λ v. 0 < length v.items → length (ends f.now) ≡ 2) }
    ensures uncounted { work.new.judged ≡ work.old.judged }
{
    let mut handles = work.take_handles(alloc);
    let line = f.shape();
    if line.end_count() == 2 {
        work.push_junction(line.end(0), &mut handles)?;
        work.push_junction(line.end(1), &mut handles)?;
        once_each(alloc, &mut handles)?;
    }
    Ok(handles)
}

// Whether a rule that judges the subject has not enough of the features of these handles at the place.
fn is_open<M: Meter>(
    parts: &[RulePart],
    features: &FeatureIndex<'_, M>,
    handles: &[u32],
    f: &Feature,
    place: GridPoint,
) -> bool
    requires { IsAscending features.now.features }
    ensures { result ≡ list_any (λ (p : terms.RulePart). lacks_at f.now (live_of features.now.features handles.now) place p.rule) parts.now }
{
    parts.iter().any(
        |p|
            requires { IsAscending features.now.features }
        { p.judges(f) && !features.are_enough(p.row(), handles, place) },
    )
}

// What is at the ends of the line, where these handles are known there: of an end at which they are enough for each rule no more.
fn view_beside<'a, M: Meter>(
    alloc: Global,
    parts: &[RulePart],
    features: &FeatureIndex<'a, M>,
    f: &Feature,
    known: &mut Vec<u32>,
    meter: &mut M,
) -> Result<View<'a>, NoMemory>
    requires ascending { IsAscending features.now.features }
    requires live { feature_at features.now.features f.now.handle ≡ Some f.now }
    requires known { IsStrictlyIncreasing known.old.items }
    requires two { length (ends f.now) ≡ 2 }
    requires at_ends { shows_at_ends (rules_of parts.now) f.now ≡ true }
    ensures view { IfOk result (λ v. IsShownFor (rules_of parts.now) features.now.features f.now v) }
    ensures rises { M.taken meter.old ≤ M.taken meter.new }
    ensures steps { (s : ℕ) → M.taken meter.new ≤ M.taken meter.old + most_steps s (env f.now) features.now.placed }
{
    let first = is_open(parts, features, known, f, f.shape().end(0));
    let last = is_open(parts, features, known, f, f.shape().end(1));
    features.view_at_open_ends(alloc, f, known, first, last, meter)
}

// Puts the handles of the first features of the view that are enough for the rule at the place; answers whether there are so many.
fn push_enough(
    view: &View<'_>,
    row: &RuleRow,
    place: GridPoint,
    handles: &mut Vec<u32>,
) -> Result<bool, NoMemory> {
    let mut left = row.enough();
    for i in 0..view.len() {
        if left == 0 {
            return Ok(true);
        }
        if row.counts_at(view.feature(i), place) {
            handles.push(view.feature(i).handle())?;
            left -= 1;
        }
    }
    Ok(left == 0)
}

// Keeps the handles of features of the view that are enough at the place for each rule that judges the subject, if there are so many.
fn keep_enough(
    alloc: Global,
    parts: &[RulePart],
    view: &View<'_>,
    f: &Feature,
    place: GridPoint,
    work: &mut Work,
) -> Result<(), NoMemory>
    ensures uncounted { work.new.judged ≡ work.old.judged }
{
    let mut handles = Vec::new(alloc);
    for part in parts {
        if part.judges(f) && !push_enough(view, part.row(), place, &mut handles)? {
            return Ok(());
        }
    }
    work.keep_junction(alloc, place, handles)
}

// Keeps what is enough at each end of a line of two ends, where it is shown many features.
fn keep_junctions(
    alloc: Global,
    parts: &[RulePart],
    view: &View<'_>,
    f: &Feature,
    work: &mut Work,
) -> Result<(), NoMemory>
    ensures uncounted { work.new.judged ≡ work.old.judged }
{
    let line = f.shape();
    if view.len() < MANY || line.end_count() != 2 {
        return Ok(());
    }
    keep_enough(alloc, parts, view, f, line.end(0), work)?;
    keep_enough(alloc, parts, view, f, line.end(1), work)
}

/// What lies near the subject, or, where the rules that judge it look at its ends alone, what is to be shown to them there. Looks only at
/// what the index gives for its envelope or its ends; not for an end at which enough is known. The meter counts the steps in the index.
pub(crate) fn view_for<'a, M: Meter>(
    alloc: Global,
    parts: &[RulePart],
    features: &FeatureIndex<'a, M>,
    f: &Feature,
    work: &mut Work,
    meter: &mut M,
) -> Result<View<'a>, NoMemory>
    requires ascending { IsAscending features.now.features }
    requires live { feature_at features.now.features f.now.handle ≡ Some f.now }
    ensures view { IfOk result (λ v. IsShownFor (rules_of parts.now) features.now.features f.now v) }
    ensures uncounted { work.new.judged ≡ work.old.judged }
    ensures rises { M.taken meter.old ≤ M.taken meter.new }
    ensures steps { (s : ℕ) → M.taken meter.new ≤ M.taken meter.old + view_steps s (env f.now) features.now.placed }
{
    if !is_shown_at_ends(parts, f) {
        let mut found = work.take_handles(alloc);
        let near = features.view_of(alloc, f, &mut found, meter)?;
        work.give_handles(found);
        return Ok(near);
    }
    let mut found = known_at_ends(alloc, f, work)?;
    let view = if found.is_empty() {
        features.view_near_or_at_ends(alloc, f, &mut found, meter)?
    } else {
        view_beside(alloc, parts, features, f, &mut found, meter)?
    };
    work.give_handles(found);
    keep_junctions(alloc, parts, &view, f, work)?;
    Ok(view)
}
