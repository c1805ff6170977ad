ghost use Rattle.std.specs.Prelude.{◌≡◌, ◌==◌, ◌++◌, ◌∷◌, [], not, filter, length, IfOk, OnOk};
ghost use Rattle.std.specs.BTreeMap.{IsOrdered, keys};
ghost use Rattle.std.specs.declared.cmp.Ordering.TheVariants.{Less};
ghost use Rattle.plane_terms.specs.Lists.{Every};
ghost use Rattle.topology_terms.specs.Entry as terms;
ghost use Rattle.error_store.specs.Pairs.{pair_cmp, all_entries, IsRunOf, AreRuns};

use crate::entry::Entry;
use crate::list;
use crate::pair::Pair;
use grid_plane::NoMemory;
use std::alloc::Global;
use std::collections::BTreeMap;

/// The law that the errors ascend by key, since the pairs ascend.
pub fn order_law(runs: &BTreeMap<Pair, Vec<Entry>>)
    requires { AreRuns runs.now }
    ensures ascending { terms.IsAscending (all_entries runs.now) }
    ensures ordered { IsOrdered pair_cmp runs.now }
{
    let _ = runs.len();
}

/// Takes out the errors of the rule.
pub fn drop_from(runs: &mut BTreeMap<Pair, Vec<Entry>>, rule: u16)
    requires { AreRuns runs.old }
    ensures left { all_entries runs.new ≡ filter (λ (e : terms.Entry). not (e.rule == rule)) (all_entries runs.old) }
    ensures runs { AreRuns runs.new }
{
    runs.retain(|pair, _| pair.rule != rule);
}

/// How many of the errors, of which there are so many, are left without those of the rule.
pub fn left_without(runs: &BTreeMap<Pair, Vec<Entry>>, number: usize, rule: u16) -> usize
    requires runs { AreRuns runs.now }
    requires number { number ≡ length (all_entries runs.now) }
    ensures { result ≡ length (filter (λ (e : terms.Entry). not (e.rule == rule)) (all_entries runs.now)) }
{
    let mut left = number;
    for (pair, run) in runs {
        if pair.rule == rule {
            left -= run.len();
        }
    }
    left
}

// Puts a run in whose pair is above all others.
fn push_run(
    runs: &mut BTreeMap<Pair, Vec<Entry>>,
    pair: Pair,
    run: Vec<Entry>,
) -> Result<(), NoMemory>
    requires above { Every (λ q. pair_cmp q pair ≡ Less) (keys runs.old) }
    requires run { IsRunOf pair run.items }
    requires runs { AreRuns runs.old }
    ensures list { OnOk result (all_entries runs.new ≡ all_entries runs.old ++ run.items) }
    ensures keys { OnOk result (keys runs.new ≡ keys runs.old ++ pair ∷ []) }
    ensures runs { OnOk result (AreRuns runs.new) }
{
    runs.insert(pair, run)?;
    Ok(())
}

/// The same runs once more.
pub fn copy_of(
    alloc: Global,
    runs: &BTreeMap<Pair, Vec<Entry>>,
) -> Result<BTreeMap<Pair, Vec<Entry>>, NoMemory>
    requires { AreRuns runs.now }
    ensures list { IfOk result (λ copy. all_entries copy ≡ all_entries runs.now) }
    ensures runs { IfOk result AreRuns }
{
    let mut copy = BTreeMap::new(alloc);
    for (pair, run) in runs {
        push_run(&mut copy, *pair, list::copy_of(alloc, run)?)?;
    }
    Ok(copy)
}
