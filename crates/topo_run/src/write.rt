ghost use Rattle.std.specs.Prelude.{◌≡◌, ◌<◌, ◌≤◌, ◌++◌, List, ℕ, length, OnOk, OnErr, IsErrOf};
ghost use Rattle.std.specs.Io.KnownBytes.{Appends};
ghost use Rattle.script_terms.specs.Run.{IsPrefix};
ghost use Rattle.outside_terms.specs.Faults.{Rose};
ghost use Rattle.topo_run.specs.Unopened.{Says};

use outside_terms::Status;
use topo_outside::{Sink, SinkFault};

/// Writes all the bytes, or a prefix of them.
pub fn write_all<K: Sink>(sink: &mut K, bytes: &[u8]) -> Result<(), SinkFault>
    ensures ok { OnOk result (Appends (K.written sink.old) (K.written sink.new) bytes.now) }
    ensures err { OnErr result ((front : List ℕ) × IsPrefix front bytes.now × Appends (K.written sink.old) (K.written sink.new) front × (length front < length bytes.now)) }
    ensures later { K.faults sink.old ≤ K.faults sink.new }
    ensures failed { IsErrOf result SinkFault.Failed → Rose (K.faults sink.old) (K.faults sink.new) }
{
    let mut rest = bytes;
    while !rest.is_empty() {
        let count = sink.write(rest)?;
        if count == 0 {
            return Err(SinkFault::Failed);
        }
        rest = &rest[count..];
    }
    Ok(())
}

/// Writes a text, and answers `done` where all of it was written.
pub fn say<K: Sink>(sink: &mut K, text: &[u8], done: Status) -> Status
    ensures says { Says text.now done (record { old = K.written sink.old; new = K.written sink.new; before = K.faults sink.old; now = K.faults sink.new }) result }
    ensures later { K.faults sink.old ≤ K.faults sink.new }
{
    match write_all(sink, text) {
        Ok(()) => done,
        Err(SinkFault::Failed) => Status::WriteFault,
        Err(SinkFault::NoMemory) => Status::NoMemory,
    }
}
