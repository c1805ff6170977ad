ghost use Rattle.std.specs.Prelude.{◌≡◌, IfOk};
ghost use Rattle.std.specs.List.Sorted.{IsStrictlyIncreasing};
ghost use Rattle.error_store.specs.Frames.{frames_if};
ghost use Rattle.error_store.specs.Pairs.{all_entries, AreRuns};
ghost use Rattle.error_store.specs.Runs.{is_of, ArePairsOf};

use crate::entry::Entry;
use crate::frames::note;
use crate::pair::Pair;
use crate::walk::next_of;
use grid_index::Placed;
use grid_plane::NoMemory;
use std::alloc::Global;
use std::collections::BTreeMap;
use std::ops::Bound;

/// What goes where the errors of some subjects do.
#[derive(Drop)]
pub(crate) struct Gone {
    /// The pairs of their runs.
    pub pairs: Vec<Pair>,
    /// Their frames, in the order of the errors.
    pub frames: Vec<Placed>,
}

/// What goes where the errors of these subjects do. Takes steps by the logarithm of the number of pairs for each rule that has some,
/// and for each of the subjects. Takes none where there are no subjects or no runs.
pub(crate) fn gone_of(
    alloc: Global,
    runs: &BTreeMap<Pair, Vec<Entry>>,
    subjects: &[u32],
) -> Result<Gone, NoMemory>
    requires rising { IsStrictlyIncreasing subjects.now }
    requires runs { AreRuns runs.now }
    ensures pairs { IfOk result (λ gone. ArePairsOf subjects.now runs.now gone.pairs.items) }
    ensures frames { IfOk result (λ gone. gone.frames.items ≡ frames_if (is_of subjects.now) (all_entries runs.now)) }
{
    let mut pairs = Vec::new(alloc);
    let mut frames = Vec::new(alloc);
    if runs.is_empty() || subjects.is_empty() {
        return Ok(Gone { pairs, frames });
    }
    let mut from = Bound::Unbounded;
    while let Some((pair, run)) = next_of(runs, from, subjects) {
        pairs.push(pair)?;
        note(&mut frames, run)?;
        from = Bound::Excluded(pair);
    }
    Ok(Gone { pairs, frames })
}
