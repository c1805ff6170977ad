ghost use Rattle.std.specs.Prelude.{◌≡◌, ◌↔◌, ◌==◌, not, Contains, IsTrue, IfOk, OnOk, OnErr};
ghost use Rattle.plane_terms.specs.Lists.{Every};
ghost use Rattle.topology_terms.specs.Entry as terms;
ghost use Rattle.grid_index.specs.declared.placed.Placed as placed;
ghost use Rattle.error_store.specs.FrameSets.{HasPlace};
ghost use Rattle.error_store.specs.Frames.{frames_if, IsFrame, IsShared, LosesThose, LosesRule};
ghost use Rattle.error_store.specs.Pairs.{all_entries, AreRuns, IsOf};

use crate::entry::Entry;
use crate::frame_set::{FrameSet, is_same};
use crate::frames::{drop_frames, note, place_of};
use crate::pair::Pair;
use crate::walk::next_of;
use grid_index::{Index, Placed};
use grid_plane::NoMemory;
use std::alloc::Global;
use std::collections::BTreeMap;
use std::ops::Bound;
use step_count::Count;

// The frames of the errors of this rule.
fn frames_under(
    alloc: Global,
    runs: &BTreeMap<Pair, Vec<Entry>>,
    rule: u16,
) -> Result<Vec<Placed>, NoMemory>
    requires { AreRuns runs.now }
    ensures { IfOk result (λ frames. frames.items ≡ frames_if (λ (e : terms.Entry). e.rule == rule) (all_entries runs.now)) }
{
    let mut frames = Vec::new(alloc);
    for (pair, run) in runs {
        if pair.rule == rule {
            note(&mut frames, run)?;
        }
    }
    Ok(frames)
}

// The frames of the errors of other rules.
fn frames_beside(
    alloc: Global,
    runs: &BTreeMap<Pair, Vec<Entry>>,
    rule: u16,
) -> Result<Vec<Placed>, NoMemory>
    requires { AreRuns runs.now }
    ensures { IfOk result (λ frames. frames.items ≡ frames_if (λ (e : terms.Entry). not (e.rule == rule)) (all_entries runs.now)) }
{
    let mut frames = Vec::new(alloc);
    for (pair, run) in runs {
        if pair.rule != rule {
            note(&mut frames, run)?;
        }
    }
    Ok(frames)
}

// Of these frames those that an error of another rule has. Where there are no frames there is nothing to note.
fn shared_among(
    alloc: Global,
    runs: &BTreeMap<Pair, Vec<Entry>>,
    rule: u16,
    frames: &[Placed],
) -> Result<FrameSet, NoMemory>
    requires { AreRuns runs.now }
    ensures { IfOk result (λ set. (q : placed.Placed) → Contains frames.now q → HasPlace set q ↔ IsShared rule (all_entries runs.now) q) }
{
    if frames.is_empty() {
        return FrameSet::of(alloc, &[]);
    }
    FrameSet::of(alloc, &frames_beside(alloc, runs, rule)?)
}

// Takes out the frames of the errors of the rule, but for those that an error of another rule has. It notes them all first. After an
// `Err`, out of memory, all are there.
fn drop_noted(
    index: &mut Index<Count>,
    alloc: Global,
    runs: &BTreeMap<Pair, Vec<Entry>>,
    rule: u16,
) -> Result<(), NoMemory>
    requires { AreRuns runs.now }
    ensures left { OnOk result (LosesRule rule (all_entries runs.now) index.old index.new) }
    ensures err { OnErr result (index.new ≡ index.old) }
{
    let gone = frames_under(alloc, runs, rule)?;
    let staying = shared_among(alloc, runs, rule, &gone)?;
    drop_frames(index, &staying, &gone);
    Ok(())
}

// Whether one of the errors has this frame.
fn has_frame(entries: &[Entry], frame: &Placed) -> bool
    ensures { IsTrue result ↔ IsFrame entries.now frame.now }
{
    for e in entries {
        if is_same(&place_of(e), frame) {
            return true;
        }
    }
    false
}

// Whether an error of this run, which is that of the pair, is of another rule and has this frame.
fn shares(pair: Pair, run: &[Entry], rule: u16, frame: &Placed) -> bool
    requires { Every (IsOf pair.rule pair.subject) run.now }
    ensures { IsTrue result ↔ IsShared rule run.now frame.now }
{
    if pair.rule == rule {
        return false;
    }
    has_frame(run, frame)
}

// Whether an error of another rule has this frame. Looks at the runs of its subject, and takes no memory.
fn is_shared(runs: &BTreeMap<Pair, Vec<Entry>>, rule: u16, frame: &Placed) -> bool
    requires { AreRuns runs.now }
    ensures { IsTrue result ↔ IsShared rule (all_entries runs.now) frame.now }
{
    let subjects = [frame.handle];
    let mut from = Bound::Unbounded;
    while let Some((pair, run)) = next_of(runs, from, &subjects) {
        if shares(pair, run, rule, frame) {
            return true;
        }
        from = Bound::Excluded(pair);
    }
    false
}

// Takes the frame out, unless an error of another rule has it. Takes no memory.
fn drop_unshared(
    index: &mut Index<Count>,
    runs: &BTreeMap<Pair, Vec<Entry>>,
    rule: u16,
    frame: &Placed,
)
    requires { AreRuns runs.now }
    ensures { LosesThose (λ q. frame.now ≡ q) (IsShared rule (all_entries runs.now)) index.old index.new }
{
    if is_shared(runs, rule, frame) {
        return;
    }
    index.take(frame);
}

// Takes out the frames of this run, but for those that an error of another rule has. Takes no memory.
fn drop_run(index: &mut Index<Count>, runs: &BTreeMap<Pair, Vec<Entry>>, rule: u16, run: &[Entry])
    requires { AreRuns runs.now }
    ensures { LosesThose (IsFrame run.now) (IsShared rule (all_entries runs.now)) index.old index.new }
{
    for e in run {
        drop_unshared(index, runs, rule, &place_of(e));
    }
}

// Takes out the frames of the errors of the rule, but for those that an error of another rule has. Takes no memory, but goes through
// the runs of the subject for each error of the rule.
fn drop_each(index: &mut Index<Count>, runs: &BTreeMap<Pair, Vec<Entry>>, rule: u16)
    requires { AreRuns runs.now }
    ensures { LosesRule rule (all_entries runs.now) index.old index.new }
{
    for (pair, run) in runs {
        if pair.rule == rule {
            drop_run(index, runs, rule, run);
        }
    }
}

/// Takes out the frames of the errors of the rule, but for those that an error of another rule has. Where there is no memory to note
/// them, it looks at the errors of the subject of each.
pub(crate) fn drop_rule_frames(
    index: &mut Index<Count>,
    alloc: Global,
    runs: &BTreeMap<Pair, Vec<Entry>>,
    rule: u16,
)
    requires { AreRuns runs.now }
    ensures { LosesRule rule (all_entries runs.now) index.old index.new }
{
    match drop_noted(index, alloc, runs, rule) {
        Ok(()) => (),
        Err(_) => drop_each(index, runs, rule),
    }
}
