ghost use Rattle.std.specs.Prelude.{◌≡◌, ◌≤◌, [], length, IfOk, OnErr, IsErrOf};
ghost use Rattle.outside_terms.specs.Faults.{Rose};
ghost use Rattle.script_terms.specs.Ends.{ReplaysSome, BreaksOff};
ghost use Rattle.topo_run.specs.Replayers.{AnswersAll};

use crate::pieces::Replayer;
use crate::stops::Stop;
use grid_plane::NoMemory;
use outside_terms::End;
use std::alloc::Global;
use topo_outside::{Sink, Source};

// The greatest number of bytes of a script.
const SCRIPT_LIMIT: usize = 268_435_456;

// The greatest number of bytes that one read asks for.
const PIECE: usize = 65_536;

fn zeroes(alloc: Global, len: usize) -> Result<Vec<u8>, NoMemory>
    ensures { IfOk result (λ v. length v.items ≡ len) }
{
    Ok(vec![in alloc; 0u8; len]?)
}

/// Reads a source to its end, to a failure or beyond the limit, and has a replayer that holds nothing answer all lines that are
/// whole before it reads more. At the end of the source what is held is the last line; what a failure or the limit cuts off is
/// not answered. Of a piece that goes beyond the limit the bytes up to there count. Gives how the reading ended, or why the
/// answering ended before: `WriteFault` where the sink failed, or took nothing, and `NoMemory`.
pub fn answer_script<S: Source, K: Sink>(
    alloc: Global,
    replayer: &mut Replayer,
    source: &mut S,
    sink: &mut K,
) -> Result<End, Stop>
    requires { replayer.old.rest ≡ [] }
    ensures ok { IfOk result (λ end. AnswersAll replayer.old replayer.new
        (record { old = S.left source.old; new = S.left source.new; before = S.faults source.old; now = S.faults source.new })
        (record { old = K.written sink.old; new = K.written sink.new; before = K.faults sink.old; now = K.faults sink.new })
        end) }
    ensures err { OnErr result (ReplaysSome replayer.old.state
        (record { old = S.left source.old; new = S.left source.new; before = S.faults source.old; now = S.faults source.new })
        (record { old = K.written sink.old; new = K.written sink.new; before = K.faults sink.old; now = K.faults sink.new })) }
    ensures broken { IsErrOf result Stop.WriteFault → BreaksOff replayer.old.state
        (record { old = S.left source.old; new = S.left source.new; before = S.faults source.old; now = S.faults source.new })
        (record { old = K.written sink.old; new = K.written sink.new; before = K.faults sink.old; now = K.faults sink.new }) }
    ensures failed { IsErrOf result Stop.WriteFault → Rose (K.faults sink.old) (K.faults sink.new) }
    ensures counts { (S.faults source.old ≤ S.faults source.new) × (K.faults sink.old ≤ K.faults sink.new) }
{
    replayer.state_law();
    let mut piece = zeroes(alloc, PIECE)?;
    let mut room = SCRIPT_LIMIT;
    loop {
        match source.read(&mut piece) {
            Ok(0) => {
                replayer.take_end(sink)?;
                return Ok(End::AtEnd);
            }
            Ok(count) => {
                replayer.take_piece(&piece[..count.min(room)], sink)?;
                if count > room {
                    return Ok(End::TooLong);
                }
                room -= count;
            }
            Err(_) => return Ok(End::Failed),
        }
    }
}
