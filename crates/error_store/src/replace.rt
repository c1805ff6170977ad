ghost use Rattle.std.specs.Prelude.{◌≡◌, ◌≤◌, ◌<◌, ◌+◌, ◌^◌, ℕ, List, [], ◌∷◌, None, Some, length, IsSome, IfOk, OnOk, OnErr, vec_len};
ghost use Rattle.std.specs.BTreeMap.{get, keys};
ghost use Rattle.topology_terms.specs.Entry.{IsAscending};
ghost use Rattle.validation_laws.specs.Replaced.{IsReplaced, AreFresh};
ghost use Rattle.error_store.specs.Pairs.{pair_cmp, all_entries, IsRunOf, AreRuns};
ghost use Rattle.error_store.specs.Cutting.{AreOrderedRuns};
ghost use Rattle.error_store.specs.Exchange.{HasRoom, KeepsBeside, IsSetAt, AreDropped, ArePutIn};
ghost use Rattle.error_store.specs.Runs.{ArePairsOf};

use crate::cut::cut;
use crate::entry::Entry;
use crate::marks::keep_marks;
use crate::pair::Pair;
use grid_plane::NoMemory;
use std::alloc::Global;
use std::collections::BTreeMap;

// Puts an empty run at the pair, where there is none. An empty run has no error, so that nothing changes.
fn make_room_at(
    runs: &mut BTreeMap<Pair, Vec<Entry>>,
    alloc: Global,
    pair: Pair,
) -> Result<(), NoMemory>
    requires { AreOrderedRuns runs.old }
    ensures runs { AreOrderedRuns runs.new }
    ensures same { all_entries runs.new ≡ all_entries runs.old }
    ensures room { OnOk result (IsSome (get pair_cmp runs.new pair)) }
    ensures kept { HasRoom runs.old runs.new }
    ensures beside { KeepsBeside (pair ∷ []) runs.old runs.new }
{
    if runs.contains_key(&pair) {
        return Ok(());
    }
    runs.insert(pair, Vec::new(alloc))?;
    Ok(())
}

// Puts an empty run at each pair of the fresh runs at which there is none: so that nothing is left to do for which there may be no
// memory, and nothing is to be undone after an `Err`.
fn make_room(
    runs: &mut BTreeMap<Pair, Vec<Entry>>,
    alloc: Global,
    fresh: &BTreeMap<Pair, Vec<Entry>>,
) -> Result<(), NoMemory>
    requires { AreOrderedRuns runs.old }
    ensures runs { AreOrderedRuns runs.new }
    ensures same { all_entries runs.new ≡ all_entries runs.old }
    ensures room { OnOk result (HasRoom fresh.now runs.new) }
    ensures beside { OnOk result (KeepsBeside (keys fresh.now) runs.old runs.new) }
{
    for pair in fresh.keys() {
        make_room_at(runs, alloc, *pair)?;
    }
    Ok(())
}

// Takes out the run of the pair. Gives how many errors there are then.
fn take_out(runs: &mut BTreeMap<Pair, Vec<Entry>>, number: usize, pair: Pair) -> usize
    requires runs { AreOrderedRuns runs.old }
    requires number { number ≡ length (all_entries runs.old) }
    ensures runs { AreOrderedRuns runs.new }
    ensures number { result ≡ length (all_entries runs.new) }
    ensures set { IsSetAt pair None runs.old runs.new }
    ensures fewer { result ≤ number }
{
    match runs.remove(&pair) {
        Some(run) => number - run.len(),
        None => number,
    }
}

// Takes out the runs of these pairs, but for those at whose pair there is a fresh one. Gives how many errors there are then.
fn drop_gone(
    runs: &mut BTreeMap<Pair, Vec<Entry>>,
    number: usize,
    pairs: &[Pair],
    fresh: &BTreeMap<Pair, Vec<Entry>>,
) -> usize
    requires runs { AreOrderedRuns runs.old }
    requires number { number ≡ length (all_entries runs.old) }
    ensures runs { AreOrderedRuns runs.new }
    ensures number { result ≡ length (all_entries runs.new) }
    ensures dropped { AreDropped pairs.now fresh.now runs.old runs.new }
    ensures fewer { result ≤ number }
{
    let mut left = number;
    for pair in pairs {
        if !fresh.contains_key(pair) {
            left = take_out(runs, left, *pair);
        }
    }
    left
}

// Puts the run at its pair, at which there is one. Gives how many errors there are then.
fn put_at(
    runs: &mut BTreeMap<Pair, Vec<Entry>>,
    number: usize,
    pair: Pair,
    run: Vec<Entry>,
) -> usize
    requires runs { AreOrderedRuns runs.old }
    requires number { number ≡ length (all_entries runs.old) }
    requires room { IsSome (get pair_cmp runs.old pair) }
    requires own { IsRunOf pair run.items }
    requires fits { number + vec_len run < 2 ^ 64 }
    ensures runs { AreOrderedRuns runs.new }
    ensures number { result ≡ length (all_entries runs.new) }
    ensures set { IsSetAt pair (Some run) runs.old runs.new }
    ensures most { result ≤ number + vec_len run }
{
    let count = run.len();
    let put: Result<_, _> = runs.insert(pair, run);
    match put.unwrap() {
        Some(old) => number - old.len() + count,
        None => number + count,
    }
}

// Puts each fresh run at its pair, at which there is one. Gives how many errors there are then.
fn put_each(
    runs: &mut BTreeMap<Pair, Vec<Entry>>,
    number: usize,
    fresh: BTreeMap<Pair, Vec<Entry>>,
) -> usize
    requires runs { AreOrderedRuns runs.old }
    requires number { number ≡ length (all_entries runs.old) }
    requires fresh { AreOrderedRuns fresh }
    requires room { HasRoom fresh runs.old }
    requires fits { number + length (all_entries fresh) < 2 ^ 64 }
    ensures runs { AreOrderedRuns runs.new }
    ensures number { result ≡ length (all_entries runs.new) }
    ensures put { ArePutIn fresh runs.old runs.new }
{
    let mut fresh = fresh;
    let mut count = number;
    while let Some((pair, run)) = fresh.pop_first() {
        count = put_at(runs, count, pair, run);
    }
    count
}

/// The errors of the subjects whose pairs these are give way to the fresh ones, and all others stay. A fresh error is marked exactly
/// where the old one of its key was, and had the same extent, frame and cells. Gives how many errors there are then. After an `Err`,
/// out of memory, the errors are the same, but some empty runs may have come. Takes steps by the logarithm of the number of pairs for
/// each of these pairs and for each fresh error.
pub(crate) fn replace_runs(
    runs: &mut BTreeMap<Pair, Vec<Entry>>,
    number: usize,
    alloc: Global,
    pairs: &[Pair],
    fresh: Vec<Entry>,
) -> Result<usize, NoMemory>
    requires runs { AreRuns runs.old }
    requires number { number ≡ length (all_entries runs.old) }
    requires ascending { IsAscending fresh.items }
    ensures replaced { OnOk result ((subjects : List ℕ) → ArePairsOf subjects runs.old pairs.now → AreFresh subjects fresh.items → IsReplaced subjects (all_entries runs.old) fresh.items (all_entries runs.new)) }
    ensures number { IfOk result (λ n. n ≡ length (all_entries runs.new)) }
    ensures runs { AreRuns runs.new }
    ensures err { OnErr result (all_entries runs.new ≡ all_entries runs.old) }
{
    // So many errors are out of memory too.
    if number.checked_add(fresh.len()).is_none() {
        return Err(NoMemory);
    }
    // It tells that the pairs ascend, too.
    let before = runs.len();
    let mut fresh = fresh;
    keep_marks(runs, &mut fresh);
    let count = fresh.len();
    let fresh = cut(alloc, fresh)?;
    // Where no error was, the fresh ones are all that there are.
    if before == 0 {
        *runs = fresh;
        return Ok(count);
    }
    make_room(runs, alloc, &fresh)?;
    let left = drop_gone(runs, number, pairs, &fresh);
    Ok(put_each(runs, left, fresh))
}
