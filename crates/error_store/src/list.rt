ghost use Rattle.std.specs.Prelude.{◌≡◌, ◌<◌, ℕ, length, slice_get, None, Some, IfOk, IfErr, OnOk, OnErr, MatchOption};
ghost use Rattle.topology_terms.specs.Changes.{SameButMark};
ghost use Rattle.topology_terms.specs.Causes.{mark_cause};
ghost use Rattle.topology_terms.specs.Entry.{entry_at};
ghost use Rattle.topology_terms.specs.Entry as terms;
ghost use Rattle.error_store.specs.Marking.{IsMarkSet, fault_cause};

use crate::compare::compare;
use crate::entry::Entry;
use crate::fault::MarkFault;
use crate::key::Key;
use grid_plane::NoMemory;
use std::alloc::Global;

/// Where the error of this key stands.
pub fn place_of(entries: &[Entry], key: Key) -> Option<usize>
    requires { terms.IsAscending entries.now }
    ensures { MatchOption result (entry_at entries.now key.rule key.subject key.other ≡ None)
        (λ i. (i < length entries.now) × (slice_get entries.now i ≡ entry_at entries.now key.rule key.subject key.other)) }
{
    match entries.binary_search_by(|e| compare(e.key(), key)) {
        Ok(place) => Some(place),
        Err(_) => None,
    }
}

/// The error of this key. Takes steps by the logarithm of their number.
pub fn find_in(entries: &[Entry], key: Key) -> Option<&Entry>
    requires { terms.IsAscending entries.now }
    ensures { MatchOption result (entry_at entries.now key.rule key.subject key.other ≡ None) (λ e. entry_at entries.now key.rule key.subject key.other ≡ Some e.now) }
{
    let place = place_of(entries, key)?;
    Some(&entries[place])
}

/// Marks the error of this key as an exception, or takes its mark away.
pub fn mark_in(entries: &mut Vec<Entry>, key: Key, on: bool) -> Result<(), MarkFault>
    requires { terms.IsAscending entries.old.items }
    ensures set { OnOk result (IsMarkSet key.rule key.subject key.other on entries.old.items entries.new.items) }
    ensures may { OnOk result (mark_cause entries.old.items key.rule key.subject key.other on ≡ None) }
    ensures refused { IfErr result (λ e. mark_cause entries.old.items key.rule key.subject key.other on ≡ Some (fault_cause e)) }
    ensures ascending { terms.IsAscending entries.new.items }
    ensures same { (r a b : ℕ) → SameButMark (entry_at entries.old.items r a b) (entry_at entries.new.items r a b) }
    ensures len { length entries.new.items ≡ length entries.old.items }
    ensures err { OnErr result (entries.new.items ≡ entries.old.items) }
{
    let Some(place) = place_of(entries, key) else {
        return Err(MarkFault::NoError);
    };
    let entry = &mut entries[place];
    if entry.marked() == on {
        return Err(MarkFault::AlreadySo);
    }
    entry.set_mark(on);
    Ok(())
}

/// The same list once more.
pub fn copy_of(alloc: Global, entries: &[Entry]) -> Result<Vec<Entry>, NoMemory>
    ensures { IfOk result (λ v. v.items ≡ entries.now) }
{
    let mut copy = Vec::new(alloc);
    for e in entries {
        copy.push(e.try_copy(alloc)?)?;
    }
    Ok(copy)
}
