ghost use Rattle.std.specs.Prelude.{◌≡◌, None, Some, MatchOption};
ghost use Rattle.plane_terms.specs.Lists.{Paired};
ghost use Rattle.topology_terms.specs.Changes.{KeepsMark};
ghost use Rattle.topology_terms.specs.Entry.{entry_at};
ghost use Rattle.error_store.specs.Pairs.{all_entries};
ghost use Rattle.error_store.specs.Cutting.{AreOrderedRuns};
ghost use Rattle.error_store.specs.Exchange.{IsRemarkedFrom};

use crate::entry::Entry;
use crate::key::Key;
use crate::list::find_in;
use crate::pair::Pair;
use std::collections::BTreeMap;

/// The error of this key. Takes steps by the logarithm of the number of pairs, and of that of the errors of its pair.
pub(crate) fn find<'a>(runs: &'a BTreeMap<Pair, Vec<Entry>>, key: Key) -> Option<&'a Entry>
    requires { AreOrderedRuns runs.now }
    ensures { MatchOption result (entry_at (all_entries runs.now) key.rule key.subject key.other ≡ None) (λ e. entry_at (all_entries runs.now) key.rule key.subject key.other ≡ Some e.now) }
{
    let pair = Pair {
        rule: key.rule,
        subject: key.subject,
    };
    let run = runs.get(&pair)?;
    find_in(run, key)
}

// Whether the fresh error takes the mark of the old one of its key.
fn keeps_mark(runs: &BTreeMap<Pair, Vec<Entry>>, fresh: &Entry) -> bool
    requires { AreOrderedRuns runs.now }
    ensures { KeepsMark (entry_at (all_entries runs.now) fresh.now.rule fresh.now.subject fresh.now.other) (record fresh.now { marked = result }) }
{
    match find(runs, fresh.key()) {
        Some(old) => old.marked() && old.is_unchanged(fresh),
        None => false,
    }
}

/// Marks each fresh error whose old one of the same key is marked, and has the same extent, frame and cells.
pub(crate) fn keep_marks(runs: &BTreeMap<Pair, Vec<Entry>>, fresh: &mut [Entry])
    requires { AreOrderedRuns runs.now }
    ensures { Paired (IsRemarkedFrom (all_entries runs.now)) fresh.old fresh.new }
{
    for e in fresh.iter_mut() {
        let marked = keeps_mark(runs, e);
        e.set_mark(marked);
    }
}
