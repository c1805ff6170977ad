ghost use Rattle.std.specs.Prelude.{◌≤◌};

use super::{
    AT_ONCE, Kind, calls_for, failing_sink, failing_source, first_lines, repeated, replay,
    replies_to_whole_lines,
};
use crate::script::LEN;
use crate::statuses::{READ_FAULT, TOO_LONG, WRITE_FAULT};
use crate::streams::EndlessSource;
use crate::tally::Tally;
use std::alloc::{AllocError, Global};
use topo_outside::SureSink;

// The greatest number of bytes of a script.
const SCRIPT_LIMIT: u64 = 268_435_456;

// The script in pieces; each read fails in turn, also the one that would find the end.
fn fail_each_read(alloc: Global, piece: usize, tally: &mut Tally) -> Result<(), AllocError>
    requires { 1 ≤ piece }
{
    let script = first_lines(alloc, LEN)?;
    for before in 0..calls_for(script.len(), piece).saturating_add(1) {
        let given = before.saturating_mul(piece).min(script.len());
        let mut source = failing_source(alloc, &script, piece, before as u64 + 1)?;
        let mut sink = SureSink::new(alloc);
        let status = replay(alloc, &mut source, &mut sink)?;
        let expected = replies_to_whole_lines(alloc, &script[..given])?;
        tally.note(status == READ_FAULT && sink.bytes().as_slice() == expected.as_slice());
    }
    Ok(())
}

/// A read fails: the lines whose LF was read are answered.
pub struct FailingReads;

impl Kind for FailingReads {
    fn name(&self) -> &str {
        "reads that fail"
    }

    fn runs(&self, alloc: Global) -> Result<Tally, AllocError> {
        let mut tally = Tally::new();
        fail_each_read(alloc, 1, &mut tally)?;
        fail_each_read(alloc, 2, &mut tally)?;
        fail_each_read(alloc, 7, &mut tally)?;
        fail_each_read(alloc, AT_ONCE, &mut tally)?;
        Ok(tally)
    }
}

/// A read fails, and so does the first write, where there is something to write.
pub struct FailingReadsAndWrites;

impl Kind for FailingReadsAndWrites {
    fn name(&self) -> &str {
        "reads that fail, and the first write"
    }

    fn runs(&self, alloc: Global) -> Result<Tally, AllocError> {
        let mut tally = Tally::new();
        let script = first_lines(alloc, LEN)?;
        for given in 0..script.len() + 1 {
            let mut source = failing_source(alloc, &script, 1, given as u64 + 1)?;
            let mut sink = failing_sink(alloc, AT_ONCE, 1)?;
            let status = replay(alloc, &mut source, &mut sink)?;
            let unwritten = replies_to_whole_lines(alloc, &script[..given])?;
            let expected = if unwritten.is_empty() {
                READ_FAULT
            } else {
                WRITE_FAULT
            };
            tally.note(status == expected && sink.bytes().is_empty());
        }
        Ok(tally)
    }
}

/// A source without end: 4,096 of its lines of 65,535 bytes are within the limit of a script, and the first bytes of one more.
pub struct EndlessReads;

impl Kind for EndlessReads {
    fn name(&self) -> &str {
        "a source without end"
    }

    fn runs(&self, alloc: Global) -> Result<Tally, AllocError> {
        let mut tally = Tally::new();
        let mut line = repeated(alloc, b"x ", 32_767)?;
        line.extend_from_slice(b"\n")?;
        let mut source = EndlessSource::new(line);
        let mut sink = SureSink::new(alloc);
        let status = replay(alloc, &mut source, &mut sink)?;
        let expected = repeated(alloc, b"refused E01\n", 4096)?;
        let is_asked_no_more = source.before() <= SCRIPT_LIMIT && source.given() > SCRIPT_LIMIT;
        let is_answered = sink.bytes().as_slice() == expected.as_slice();
        tally.note(status == TOO_LONG && is_asked_no_more && is_answered);
        Ok(tally)
    }
}
