ghost use Rattle.std.specs.Prelude.{◌≤◌};

mod reads;
mod saving;
mod shelves;
mod usage;
mod whole;
mod writes;

use crate::script::{LEN, LINES};
use crate::statuses::{DONE, REFUSED};
use crate::tally::Tally;
pub use reads::{EndlessReads, FailingReads, FailingReadsAndWrites};
pub use saving::{SavingOverFaults, SavingReads, SavingRuns, SavingWrites};
pub use shelves::{AbsentProjects, FailingShelves, SavedProjects, UnsavedProjects, WrongTexts};
use std::alloc::{AllocError, Global};
use std::collections::BTreeMap;
use topo_outside::{MemShelf, MemSink, MemSource, Shelf, Sink, Source, SureShelf};
use topo_run::run;
pub use usage::{FailingUsage, OtherWords};
pub use whole::{PlainRuns, RunsInPieces};
pub use writes::{EarlyWrites, EmptyWrites, FailingWrites, LateWrites};

/// A kind of runs.
pub trait Kind {
    /// What these runs are.
    fn name(&self) -> &str;

    /// Makes all runs of the kind, and counts those that do not end as they are to.
    fn runs(&self, alloc: Global) -> Result<Tally, AllocError>;
}

// A piece that has room for all that a run reads or writes.
const AT_ONCE: usize = 1_000_000;

// The status of a run with these words over this shelf.
fn status_on<S: Source, K: Sink, H: Shelf>(
    alloc: Global,
    words: &[&str],
    source: &mut S,
    sink: &mut K,
    shelf: &mut H,
) -> Result<u8, AllocError> {
    let mut owned = Vec::new(alloc);
    for word in words {
        owned.push(String::from_str(alloc, word)?)?;
    }
    Ok(run(alloc, &owned, source, sink, shelf))
}

// The status of a run with these words, with an empty shelf.
fn status_with<S: Source, K: Sink>(
    alloc: Global,
    words: &[&str],
    source: &mut S,
    sink: &mut K,
) -> Result<u8, AllocError> {
    let mut shelf = SureShelf::new(BTreeMap::new(alloc));
    status_on(alloc, words, source, sink, &mut shelf)
}

// The status of a replay.
fn replay<S: Source, K: Sink>(
    alloc: Global,
    source: &mut S,
    sink: &mut K,
) -> Result<u8, AllocError> {
    status_with(alloc, &["replay"], source, sink)
}

// The number of calls that pass so many bytes on in pieces.
fn calls_for(len: usize, piece: usize) -> usize
    requires { 1 ≤ piece }
{
    len.div_ceil(piece)
}

// A source that gives these bytes in pieces; the call of this number fails, none where it is 0.
fn failing_source(
    alloc: Global,
    bytes: &[u8],
    piece: usize,
    call: u64,
) -> Result<MemSource, AllocError>
    requires { 1 ≤ piece }
{
    let failing = vec![in alloc; call]?;
    Ok(MemSource::new(bytes.to_vec(alloc)?, piece, failing))
}

// A sink that takes pieces; the call of this number fails, none where it is 0.
fn failing_sink(alloc: Global, piece: usize, call: u64) -> Result<MemSink, AllocError>
    requires { 1 ≤ piece }
{
    Ok(MemSink::new(alloc, piece, vec![in alloc; call]?))
}

// A sink that takes pieces; the call of this number takes nothing.
fn idle_sink(alloc: Global, piece: usize, call: u64) -> Result<MemSink, AllocError>
    requires { 1 ≤ piece }
{
    let idle = vec![in alloc; call]?;
    Ok(MemSink::with_idle(alloc, piece, Vec::new(alloc), idle))
}

// Whether the shelf holds this text under the name.
fn holds(shelf: &MemShelf, name: &str, text: &[u8]) -> bool {
    match shelf.held().get(name) {
        Some(bytes) => bytes.as_slice() == text,
        None => false,
    }
}

// The same bytes so many times.
fn repeated(alloc: Global, bytes: &[u8], times: usize) -> Result<Vec<u8>, AllocError> {
    let mut text = Vec::new(alloc);
    for _ in 0..times {
        text.extend_from_slice(bytes)?;
    }
    Ok(text)
}

// The status of a run over its first lines: the fifth is refused.
fn status_of(count: usize) -> u8 {
    if count < 5 { DONE } else { REFUSED }
}

// The first lines of the script, without the LF of the last.
fn first_lines(alloc: Global, count: usize) -> Result<Vec<u8>, AllocError> {
    let mut text = Vec::new(alloc);
    for (line, _) in LINES.iter().take(count) {
        if !text.is_empty() {
            text.extend_from_slice(b"\n")?;
        }
        text.extend_from_slice(line.as_bytes())?;
    }
    Ok(text)
}

// All lines of the script, each with its LF.
fn whole_lines(alloc: Global) -> Result<Vec<u8>, AllocError> {
    let mut text = first_lines(alloc, LEN)?;
    text.extend_from_slice(b"\n")?;
    Ok(text)
}

// The replies to the first lines.
fn first_replies(alloc: Global, count: usize) -> Result<Vec<u8>, AllocError> {
    let mut text = Vec::new(alloc);
    for (_, reply) in LINES.iter().take(count) {
        text.extend_from_slice(reply.as_bytes())?;
    }
    Ok(text)
}

// The replies to the lines of the script whose LF is among these first bytes of it.
fn replies_to_whole_lines(alloc: Global, front: &[u8]) -> Result<Vec<u8>, AllocError> {
    let count = front.iter().filter(|b| **b == b'\n').count();
    first_replies(alloc, count)
}
