ghost use Rattle.std.specs.Prelude.{◌≤◌};

use super::{
    AT_ONCE, Kind, calls_for, failing_sink, failing_source, first_lines, first_replies, replay,
    status_of,
};
use crate::script::LEN;
use crate::tally::Tally;
use std::alloc::{AllocError, Global};
use topo_outside::{SureSink, SureSource};

/// The first lines of the script, as many as there are, where nothing fails.
pub struct PlainRuns;

impl Kind for PlainRuns {
    fn name(&self) -> &str {
        "the first lines of the script"
    }

    fn runs(&self, alloc: Global) -> Result<Tally, AllocError> {
        let mut tally = Tally::new();
        for count in 0..LEN + 1 {
            let mut source = SureSource::new(first_lines(alloc, count)?);
            let mut sink = SureSink::new(alloc);
            let status = replay(alloc, &mut source, &mut sink)?;
            let expected = first_replies(alloc, count)?;
            tally.note(
                status == status_of(count) && sink.bytes().as_slice() == expected.as_slice(),
            );
        }
        Ok(tally)
    }
}

// The source gives and the sink takes pieces. The read after the last would fail.
fn run_in_pieces(
    alloc: Global,
    given: usize,
    taken: usize,
    tally: &mut Tally,
) -> Result<(), AllocError>
    requires given { 1 ≤ given }
    requires taken { 1 ≤ taken }
{
    let script = first_lines(alloc, LEN)?;
    let expected = first_replies(alloc, LEN)?;
    let reads = calls_for(script.len(), given).saturating_add(1) as u64;
    let mut source = failing_source(alloc, &script, given, reads.saturating_add(1))?;
    let mut sink = failing_sink(alloc, taken, 0)?;
    let status = replay(alloc, &mut source, &mut sink)?;
    tally.note(status == status_of(LEN) && sink.bytes().as_slice() == expected.as_slice());
    Ok(())
}

fn run_with_pieces_given(alloc: Global, given: usize, tally: &mut Tally) -> Result<(), AllocError>
    requires { 1 ≤ given }
{
    run_in_pieces(alloc, given, 1, tally)?;
    run_in_pieces(alloc, given, 2, tally)?;
    run_in_pieces(alloc, given, 7, tally)?;
    run_in_pieces(alloc, given, AT_ONCE, tally)
}

/// The whole script in pieces of 1, 2 and 7 bytes and at once, for the source and for the sink.
pub struct RunsInPieces;

impl Kind for RunsInPieces {
    fn name(&self) -> &str {
        "pieces of 1, 2 and 7 bytes, and all at once"
    }

    fn runs(&self, alloc: Global) -> Result<Tally, AllocError> {
        let mut tally = Tally::new();
        run_with_pieces_given(alloc, 1, &mut tally)?;
        run_with_pieces_given(alloc, 2, &mut tally)?;
        run_with_pieces_given(alloc, 7, &mut tally)?;
        run_with_pieces_given(alloc, AT_ONCE, &mut tally)?;
        Ok(tally)
    }
}
