ghost use Rattle.std.specs.Prelude.{◌≡◌, ◌<◌, ◌≤◌, ℕ, true, false, None, Some, length, filter, nat_lt, Contains, MatchOption, IfOk};
ghost use Rattle.std.specs.BTreeMap.{IsOrdered};
ghost use Rattle.std.specs.List.{flat_map};
ghost use Rattle.std.specs.List.Sorted.{IsStrictlyIncreasing, IsPartitionPoint};
ghost use Rattle.error_store.specs.Pairs.{pair_cmp, all_entries, AreRuns};
ghost use Rattle.error_store.specs.Runs.{is_of, IsLeastFrom, IsLastOff, HasNoneFrom, IsNextRun};

use crate::entry::Entry;
use crate::pair::Pair;
use grid_plane::NoMemory;
use std::alloc::Global;
use std::collections::BTreeMap;
use std::ops::Bound;

// The first place from which no handle is below this one.
fn place_from(handles: &[u32], from: u32) -> usize
    requires { IsStrictlyIncreasing handles.now }
    ensures bound { result ≤ length handles.now }
    ensures parted { IsPartitionPoint (λ a. nat_lt a from ≡ true) (λ a. nat_lt a from ≡ false) handles.now result }
{
    handles.partition_point(|handle| *handle < from)
}

// The least of the handles from this one on.
fn least_from(handles: &[u32], from: u32) -> Option<u32>
    requires { IsStrictlyIncreasing handles.now }
    ensures { MatchOption result ((a : ℕ) → Contains handles.now a → a < from) (IsLeastFrom handles.now from) }
{
    let place = place_from(handles, from);
    if place < handles.len() {
        Some(handles[place])
    } else {
        None
    }
}

// The last pair up to which no pair of the rule is of one of these subjects; none, where this one is.
fn last_off(pair: Pair, subjects: &[u32]) -> Option<Pair>
    requires { IsStrictlyIncreasing subjects.now }
    ensures { MatchOption result (Contains subjects.now pair.subject) (IsLastOff subjects.now pair) }
{
    let rule = pair.rule;
    match least_from(subjects, pair.subject) {
        Some(next) => {
            if next == pair.subject {
                return None;
            }
            Some(Pair {
                rule,
                subject: next - 1,
            })
        }
        None => Some(Pair {
            rule,
            subject: u32::MAX,
        }),
    }
}

/// The first run from here on of one of these subjects. Takes steps by the logarithm of the number of pairs for each rule that
/// has some, and for each of the subjects.
pub fn next_of<'a>(
    runs: &'a BTreeMap<Pair, Vec<Entry>>,
    from: Bound<Pair>,
    subjects: &[u32],
) -> Option<(Pair, &'a Vec<Entry>)>
    requires { IsStrictlyIncreasing subjects.now }
    ensures next { MatchOption result (HasNoneFrom subjects.now runs.now from) (λ s. IsNextRun subjects.now runs.now from s.0 s.1.now) }
    ensures ordered { IsOrdered pair_cmp runs.now }
{
    let mut from = from;
    while let Some((pair, run)) = runs.range((from, Bound::Unbounded)).next() {
        let Some(last) = last_off(*pair, subjects) else {
            return Some((*pair, run));
        };
        from = Bound::Excluded(last);
    }
    None
}

/// The runs of these subjects, in the order of their pairs. Takes steps by the logarithm of the number of pairs for each rule that
/// has some, and for each of the subjects. Takes none where there are no subjects or no runs.
pub fn runs_of<'a>(
    alloc: Global,
    runs: &'a BTreeMap<Pair, Vec<Entry>>,
    subjects: &[u32],
) -> Result<Vec<&'a [Entry]>, NoMemory>
    requires rising { IsStrictlyIncreasing subjects.now }
    requires runs { AreRuns runs.now }
    ensures { IfOk result (λ v. flat_map (λ r. r.now) v.items ≡ filter (is_of subjects.now) (all_entries runs.now)) }
{
    let mut found = Vec::new(alloc);
    if runs.is_empty() || subjects.is_empty() {
        return Ok(found);
    }
    let mut from = Bound::Unbounded;
    while let Some((pair, run)) = next_of(runs, from, subjects) {
        found.push(run.as_slice())?;
        from = Bound::Excluded(pair);
    }
    Ok(found)
}
