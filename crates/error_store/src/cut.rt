ghost use Rattle.std.specs.Prelude.{◌≡◌, ◌≢◌, ◌↔◌, [], ◌++◌, ◌∷◌, ◌≤◌, ◌<◌, IsTrue, MatchOption, IfOk, OnOk};
ghost use Rattle.std.specs.BTreeMap.{IsOrdered};
ghost use Rattle.std.specs.VecDeque.{deque_len};
ghost use Rattle.plane_terms.specs.Lists.{Every};
ghost use Rattle.topology_terms.specs.Entry.{IsAscending};
ghost use Rattle.error_store.specs.Pairs.{pair_cmp, all_entries, IsOf, AreRuns};
ghost use Rattle.error_store.specs.Cutting.{pair_of, AreBehind, BeginsPast, IsPopped, AreFilled};

use crate::entry::Entry;
use crate::pair::Pair;
use grid_plane::NoMemory;
use std::alloc::Global;
use std::collections::{BTreeMap, VecDeque};

/// The rule and the subject of the error.
pub(crate) fn pair_of(e: &Entry) -> Pair
    ensures { result ≡ pair_of e.now }
{
    let key = e.key();
    Pair {
        rule: key.rule,
        subject: key.subject,
    }
}

fn is_of(e: &Entry, pair: Pair) -> bool
    ensures { IsTrue result ↔ (pair_of e.now ≡ pair) }
{
    pair_of(e) == pair
}

// Takes out the first of the errors, where it is of this pair.
fn pop_of(rest: &mut VecDeque<Entry>, pair: Pair) -> Option<Entry>
    ensures popped { MatchOption result (BeginsPast pair rest.old.items × (rest.new.items ≡ rest.old.items)) (λ e. IsPopped pair e rest.old.items rest.new.items) }
    ensures fewer { MatchOption result (deque_len rest.new ≡ deque_len rest.old) (λ _. deque_len rest.new < deque_len rest.old) }
{
    let first = rest.front()?;
    if is_of(first, pair) {
        rest.pop_front()
    } else {
        None
    }
}

// The run that begins with this error. Those behind it stay.
fn take_run(alloc: Global, first: Entry, rest: &mut VecDeque<Entry>) -> Result<Vec<Entry>, NoMemory>
    requires { IsAscending (first ∷ rest.old.items) }
    ensures list { IfOk result (λ run. run.items ++ rest.new.items ≡ first ∷ rest.old.items) }
    ensures own { IfOk result (λ run. Every (IsOf first.rule first.subject) run.items) }
    ensures filled { IfOk result (λ run. run.items ≢ []) }
    ensures behind { OnOk result (AreBehind (pair_of first) rest.new.items) }
    ensures fewer { deque_len rest.new ≤ deque_len rest.old }
{
    let pair = pair_of(&first);
    let mut run = Vec::new(alloc);
    run.push(first)?;
    while let Some(next) = pop_of(rest, pair) {
        run.push(next)?;
    }
    Ok(run)
}

/// The errors in runs, by rule and subject. No run is empty.
pub(crate) fn cut(
    alloc: Global,
    entries: Vec<Entry>,
) -> Result<BTreeMap<Pair, Vec<Entry>>, NoMemory>
    requires { IsAscending entries.items }
    ensures list { IfOk result (λ runs. all_entries runs ≡ entries.items) }
    ensures runs { IfOk result AreRuns }
    ensures ordered { IfOk result (IsOrdered pair_cmp) }
    ensures filled { IfOk result AreFilled }
{
    let mut runs = BTreeMap::new(alloc);
    let mut rest = VecDeque::from(entries);
    while let Some(first) = rest.pop_front() {
        let pair = pair_of(&first);
        let run = take_run(alloc, first, &mut rest)?;
        runs.insert(pair, run)?;
    }
    Ok(runs)
}
