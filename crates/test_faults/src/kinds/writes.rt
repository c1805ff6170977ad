ghost use Rattle.std.specs.Prelude.{◌≤◌};

use super::{
    AT_ONCE, Kind, calls_for, failing_sink, first_lines, first_replies, idle_sink, repeated,
    replay, whole_lines,
};
use crate::script::LEN;
use crate::statuses::{REFUSED, WRITE_FAULT};
use crate::streams::EndlessSource;
use crate::tally::Tally;
use std::alloc::{AllocError, Global};
use topo_outside::SureSource;

// The replies in pieces; each write fails in turn.
fn fail_each_write(alloc: Global, piece: usize, tally: &mut Tally) -> Result<(), AllocError>
    requires { 1 ≤ piece }
{
    let replies = first_replies(alloc, LEN)?;
    for before in 0..calls_for(replies.len(), piece) {
        let taken = before.saturating_mul(piece).min(replies.len());
        let mut source = SureSource::new(whole_lines(alloc)?);
        let mut sink = failing_sink(alloc, piece, before as u64 + 1)?;
        let status = replay(alloc, &mut source, &mut sink)?;
        tally.note(status == WRITE_FAULT && sink.bytes().as_slice() == &replies[..taken]);
    }
    Ok(())
}

// The last line has no LF: its reply is a write of its own, which fails.
fn fail_last_write(alloc: Global, tally: &mut Tally) -> Result<(), AllocError> {
    let mut source = SureSource::new(first_lines(alloc, LEN)?);
    let mut sink = failing_sink(alloc, AT_ONCE, 2)?;
    let status = replay(alloc, &mut source, &mut sink)?;
    let expected = first_replies(alloc, LEN - 1)?;
    tally.note(status == WRITE_FAULT && sink.bytes().as_slice() == expected.as_slice());
    Ok(())
}

/// A write fails: what was taken before is the front of the replies.
pub struct FailingWrites;

impl Kind for FailingWrites {
    fn name(&self) -> &str {
        "writes that fail"
    }

    fn runs(&self, alloc: Global) -> Result<Tally, AllocError> {
        let mut tally = Tally::new();
        fail_each_write(alloc, 1, &mut tally)?;
        fail_each_write(alloc, 2, &mut tally)?;
        fail_each_write(alloc, 7, &mut tally)?;
        fail_each_write(alloc, AT_ONCE, &mut tally)?;
        fail_last_write(alloc, &mut tally)?;
        Ok(tally)
    }
}

// The replies in pieces; each write takes nothing in turn.
fn empty_each_write(alloc: Global, piece: usize, tally: &mut Tally) -> Result<(), AllocError>
    requires { 1 ≤ piece }
{
    let replies = first_replies(alloc, LEN)?;
    for before in 0..calls_for(replies.len(), piece) {
        let taken = before.saturating_mul(piece).min(replies.len());
        let mut source = SureSource::new(whole_lines(alloc)?);
        let mut sink = idle_sink(alloc, piece, before as u64 + 1)?;
        let status = replay(alloc, &mut source, &mut sink)?;
        tally.note(status == WRITE_FAULT && sink.bytes().as_slice() == &replies[..taken]);
    }
    Ok(())
}

/// A write takes nothing: the same as where it fails.
pub struct EmptyWrites;

impl Kind for EmptyWrites {
    fn name(&self) -> &str {
        "writes that take nothing"
    }

    fn runs(&self, alloc: Global) -> Result<Tally, AllocError> {
        let mut tally = Tally::new();
        empty_each_write(alloc, 1, &mut tally)?;
        empty_each_write(alloc, 2, &mut tally)?;
        empty_each_write(alloc, 7, &mut tally)?;
        empty_each_write(alloc, AT_ONCE, &mut tally)?;
        Ok(tally)
    }
}

/// Replies too many to be gathered: each write fails in turn, and in the last run none does.
pub struct LateWrites;

impl Kind for LateWrites {
    fn name(&self) -> &str {
        "writes that fail in a long text"
    }

    fn runs(&self, alloc: Global) -> Result<Tally, AllocError> {
        let mut tally = Tally::new();
        let replies = repeated(alloc, b"refused E01\n", 20_000)?;
        let mut longest = 0;
        for call in 1..100 {
            let mut source = SureSource::new(repeated(alloc, b"x\n", 20_000)?);
            let mut sink = failing_sink(alloc, AT_ONCE, call)?;
            let status = replay(alloc, &mut source, &mut sink)?;
            let written = sink.bytes();
            if status == REFUSED {
                tally.note(written.as_slice() == replies.as_slice());
                break;
            }
            let is_longer = call == 1 || written.len() > longest;
            longest = written.len();
            tally.note(status == WRITE_FAULT && is_longer && replies.starts_with(written));
        }
        Ok(tally)
    }
}

/// The third byte of the first reply cannot be written, before 200,000 lines: at most 65,536 bytes of them are read.
pub struct EarlyWrites;

impl Kind for EarlyWrites {
    fn name(&self) -> &str {
        "a write that fails before a long rest"
    }

    fn runs(&self, alloc: Global) -> Result<Tally, AllocError> {
        let mut tally = Tally::new();
        let mut script = b"class wells point\n".to_vec(alloc)?;
        script.extend_from_slice(&repeated(alloc, b"dirty\n", 200_000)?)?;
        let mut source = EndlessSource::new(script);
        let mut sink = failing_sink(alloc, 1, 3)?;
        let status = replay(alloc, &mut source, &mut sink)?;
        let is_short = source.given() <= 65_536 && sink.bytes().as_slice() == b"ok".as_slice();
        tally.note(status == WRITE_FAULT && is_short);
        Ok(tally)
    }
}
