ghost use Rattle.std.specs.Prelude.{◌≤◌};

use super::{AT_ONCE, Kind, calls_for, failing_sink, failing_source, holds, idle_sink, status_on};
use crate::script::{LOTS, SAVING};
use crate::statuses::{DONE, OPEN_FAULT, READ_FAULT, SAVE_FAULT, WRITE_FAULT};
use crate::streams::EndlessSource;
use crate::tally::Tally;
use std::alloc::{AllocError, Global};
use std::collections::BTreeMap;
use topo_outside::{MemShelf, MemSink, SureSink, SureSource};

// The words of the run that saves.
const SAVES: [&str; 3] = ["replay", "-", "town"];

// What the shelf holds before it, each name with itself as its text; and the same without the name that is saved.
const HELD: [&str; 3] = ["roads", "town", "wells"];

const OTHERS: [&str; 2] = ["roads", "wells"];

// The lines of the run, each with its LF.
fn script(alloc: Global) -> Result<Vec<u8>, AllocError> {
    let mut text = Vec::new(alloc);
    for (line, _) in SAVING {
        text.extend_from_slice(line.as_bytes())?;
        text.extend_from_slice(b"\n")?;
    }
    Ok(text)
}

// The replies to the lines whose LF is among these first bytes of the script.
fn replies_to(alloc: Global, front: &[u8]) -> Result<Vec<u8>, AllocError> {
    let count = front.iter().filter(|b| **b == b'\n').count();
    let mut text = Vec::new(alloc);
    for (_, reply) in SAVING.iter().take(count) {
        text.extend_from_slice(reply.as_bytes())?;
    }
    Ok(text)
}

// A shelf that holds these names, each with itself as its text; the call of this number fails, none where it is 0.
fn shelf_of(alloc: Global, names: &[&str], call: u64) -> Result<MemShelf, AllocError> {
    let mut held = BTreeMap::new(alloc);
    for name in names {
        let text = name.as_bytes().to_vec(alloc)?;
        held.insert(String::from_str(alloc, name)?, text)?;
    }
    Ok(MemShelf::new(held, vec![in alloc; call]?))
}

// Whether each of these names is held with itself as its text.
fn holds_each(shelf: &MemShelf, names: &[&str]) -> bool {
    for name in names {
        if !holds(shelf, name, name.as_bytes()) {
            return false;
        }
    }
    true
}

// Whether the shelf holds these names as before the run, and no other.
fn is_as_before(shelf: &MemShelf, names: &[&str]) -> bool {
    shelf.held().len() == names.len() && holds_each(shelf, names)
}

// The run whose source gives pieces, where nothing fails.
fn save_from_pieces(alloc: Global, piece: usize, tally: &mut Tally) -> Result<(), AllocError>
    requires { 1 ≤ piece }
{
    let script = script(alloc)?;
    let replies = replies_to(alloc, &script)?;
    let mut shelf = shelf_of(alloc, &HELD, 0)?;
    let mut source = failing_source(alloc, &script, piece, 0)?;
    let mut sink = SureSink::new(alloc);
    let status = status_on(alloc, &SAVES, &mut source, &mut sink, &mut shelf)?;
    let is_answered = status == DONE && sink.bytes().as_slice() == replies.as_slice();
    let is_saved = holds(&shelf, "town", LOTS.as_bytes());
    tally.note(is_answered && is_saved && holds_each(&shelf, &OTHERS) && shelf.held().len() == 3);
    Ok(())
}

/// Nothing fails: the project stands under its name, and the other names are as before.
pub struct SavingRuns;

impl Kind for SavingRuns {
    fn name(&self) -> &str {
        "the run that saves"
    }

    fn runs(&self, alloc: Global) -> Result<Tally, AllocError> {
        let mut tally = Tally::new();
        save_from_pieces(alloc, 1, &mut tally)?;
        save_from_pieces(alloc, 7, &mut tally)?;
        save_from_pieces(alloc, AT_ONCE, &mut tally)?;
        Ok(tally)
    }
}

// The script in pieces; each read fails in turn, also the one that would find the end.
fn fail_each_read(alloc: Global, piece: usize, tally: &mut Tally) -> Result<(), AllocError>
    requires { 1 ≤ piece }
{
    let script = script(alloc)?;
    for before in 0..calls_for(script.len(), piece).saturating_add(1) {
        let given = before.saturating_mul(piece).min(script.len());
        let mut shelf = shelf_of(alloc, &HELD, 0)?;
        let mut source = failing_source(alloc, &script, piece, before as u64 + 1)?;
        let mut sink = SureSink::new(alloc);
        let status = status_on(alloc, &SAVES, &mut source, &mut sink, &mut shelf)?;
        let expected = replies_to(alloc, &script[..given])?;
        let is_answered = sink.bytes().as_slice() == expected.as_slice();
        tally.note(status == READ_FAULT && is_answered && is_as_before(&shelf, &HELD));
    }
    Ok(())
}

/// A read fails: the lines whose LF was read are answered, and the shelf is as before.
pub struct SavingReads;

impl Kind for SavingReads {
    fn name(&self) -> &str {
        "the run that saves, reads that fail"
    }

    fn runs(&self, alloc: Global) -> Result<Tally, AllocError> {
        let mut tally = Tally::new();
        fail_each_read(alloc, 1, &mut tally)?;
        fail_each_read(alloc, 7, &mut tally)?;
        fail_each_read(alloc, AT_ONCE, &mut tally)?;
        Ok(tally)
    }
}

// The run into this sink, which fails or takes nothing once: the bytes that it took before are the front of the replies.
fn save_into(
    alloc: Global,
    sink: &mut MemSink,
    taken: usize,
    tally: &mut Tally,
) -> Result<(), AllocError> {
    let script = script(alloc)?;
    let replies = replies_to(alloc, &script)?;
    let mut shelf = shelf_of(alloc, &HELD, 0)?;
    let mut source = SureSource::new(script);
    let status = status_on(alloc, &SAVES, &mut source, sink, &mut shelf)?;
    let is_front = sink.bytes().len() == taken && replies.starts_with(sink.bytes());
    tally.note(status == WRITE_FAULT && is_front && is_as_before(&shelf, &HELD));
    Ok(())
}

// The replies in pieces; each write fails in turn, and takes nothing in turn.
fn spoil_each_write(alloc: Global, piece: usize, tally: &mut Tally) -> Result<(), AllocError>
    requires { 1 ≤ piece }
{
    let replies = replies_to(alloc, &script(alloc)?)?;
    for before in 0..calls_for(replies.len(), piece) {
        let taken = before.saturating_mul(piece).min(replies.len());
        let call = before as u64 + 1;
        save_into(alloc, &mut failing_sink(alloc, piece, call)?, taken, tally)?;
        save_into(alloc, &mut idle_sink(alloc, piece, call)?, taken, tally)?;
    }
    Ok(())
}

/// A write fails, or takes nothing: what was taken before is the front of the replies, and the shelf is as before.
pub struct SavingWrites;

impl Kind for SavingWrites {
    fn name(&self) -> &str {
        "the run that saves, writes that fail or take nothing"
    }

    fn runs(&self, alloc: Global) -> Result<Tally, AllocError> {
        let mut tally = Tally::new();
        spoil_each_write(alloc, 1, &mut tally)?;
        spoil_each_write(alloc, 7, &mut tally)?;
        spoil_each_write(alloc, AT_ONCE, &mut tally)?;
        Ok(tally)
    }
}

// The shelf fails to give the project: nothing is read or written.
fn fail_to_give(alloc: Global, words: &[&str], tally: &mut Tally) -> Result<(), AllocError> {
    let mut shelf = shelf_of(alloc, &HELD, 1)?;
    let mut source = EndlessSource::new(b"dirty\n".to_vec(alloc)?);
    let mut sink = SureSink::new(alloc);
    let status = status_on(alloc, words, &mut source, &mut sink, &mut shelf)?;
    let is_untouched = source.given() == 0 && sink.bytes().is_empty();
    tally.note(status == OPEN_FAULT && is_untouched && is_as_before(&shelf, &HELD));
    Ok(())
}

// The shelf, which holds these names, fails to take the project: all is answered.
fn fail_to_take(alloc: Global, held: &[&str], tally: &mut Tally) -> Result<(), AllocError> {
    let script = script(alloc)?;
    let replies = replies_to(alloc, &script)?;
    let mut shelf = shelf_of(alloc, held, 1)?;
    let mut source = SureSource::new(script);
    let mut sink = SureSink::new(alloc);
    let status = status_on(alloc, &SAVES, &mut source, &mut sink, &mut shelf)?;
    let is_answered = sink.bytes().as_slice() == replies.as_slice();
    tally.note(status == SAVE_FAULT && is_answered && is_as_before(&shelf, held));
    Ok(())
}

/// The shelf fails to give or to take the project: it holds what it held.
pub struct SavingOverFaults;

impl Kind for SavingOverFaults {
    fn name(&self) -> &str {
        "the run that saves, shelves that fail"
    }

    fn runs(&self, alloc: Global) -> Result<Tally, AllocError> {
        let mut tally = Tally::new();
        fail_to_give(alloc, &["replay", "town", "town"], &mut tally)?;
        fail_to_give(alloc, &["replay", "town", "other"], &mut tally)?;
        fail_to_take(alloc, &[], &mut tally)?;
        fail_to_take(alloc, &HELD, &mut tally)?;
        fail_to_take(alloc, &OTHERS, &mut tally)?;
        Ok(tally)
    }
}
