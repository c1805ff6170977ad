ghost use Rattle.std.specs.Prelude.{◌≡◌, ◌≤◌, OnOk, IsErrOf};
ghost use Rattle.outside_terms.specs.Faults.{Rose};
ghost use Rattle.outside_terms.specs.Shelves.{KeepsHeld, KeepsOthers};
ghost use Rattle.opening_terms.specs.Saving.{Saves, EndsSaving, EndsAsReplayTo};
ghost use Rattle.script_terms.specs.State.{tree_of};
ghost use Rattle.version_terms.specs.Versions.{root_of};
ghost use Rattle.topo_run.specs.Replayers.{IsNew};
ghost use Rattle.topo_run.specs.Unopened.{IfUnopened, is_answered};

use crate::open::{say_unopened, world_of};
use crate::pieces::Replayer;
use crate::replay::replay_from;
use outside_terms::Status;
use std::alloc::Global;
use std::mem;
use topo_outside::{Shelf, ShelfFault, Sink, Source};

// Puts the project of `default` in a state under this name.
fn save<H: Shelf>(
    alloc: Global,
    replayer: &Replayer,
    target: &str,
    shelf: &mut H,
) -> Result<(), ShelfFault>
    ensures saved { OnOk result (Saves (record { old = H.held shelf.old; new = H.held shelf.new; before = H.faults shelf.old; now = H.faults shelf.new }) target.now (root_of (tree_of replayer.now.state))) }
    ensures others { KeepsOthers (H.held shelf.old) (H.held shelf.new) target.now }
    ensures failed { IsErrOf result ShelfFault.Failed → Rose (H.faults shelf.old) (H.faults shelf.new) }
    ensures no_memory { IsErrOf result ShelfFault.NoMemory → KeepsHeld (H.held shelf.old) (H.held shelf.new) }
    ensures later { H.faults shelf.old ≤ H.faults shelf.new }
{
    let topology = replayer.root();
    topology.record_law();
    let Ok(text) = topology.to_text() else {
        return Err(ShelfFault::NoMemory);
    };
    shelf.put(alloc, target, &text)
}

fn is_answered(status: Status) -> bool
    ensures { result ≡ is_answered status }
{
    matches!(status, Status::Done | Status::Refused)
}

fn replay_and_save<S: Source, K: Sink, H: Shelf>(
    alloc: Global,
    replayer: &mut Replayer,
    target: &str,
    source: &mut S,
    sink: &mut K,
    shelf: &mut H,
) -> Status
    requires { IsNew replayer.old }
    ensures ends { EndsSaving replayer.old.state target.now
        (record { old = S.left source.old; new = S.left source.new; before = S.faults source.old; now = S.faults source.new })
        (record { old = H.held shelf.old; new = H.held shelf.new; before = H.faults shelf.old; now = H.faults shelf.new })
        (record { old = K.written sink.old; new = K.written sink.new; before = K.faults sink.old; now = K.faults sink.new })
        result }
    ensures counts { (S.faults source.old ≤ S.faults source.new) × (K.faults sink.old ≤ K.faults sink.new) × (H.faults shelf.old ≤ H.faults shelf.new) }
{
    let status = replay_from(alloc, replayer, source, sink);
    if !is_answered(status) {
        return status;
    }
    match save(alloc, replayer, target, shelf) {
        Ok(()) => status,
        Err(ShelfFault::Failed) => Status::SaveFault,
        Err(ShelfFault::NoMemory) => Status::NoMemory,
    }
}

/// Replays the script of a source from the project of this name, and saves the project at its end as `target`.
pub fn replay_to<S: Source, K: Sink, H: Shelf>(
    alloc: Global,
    name: &str,
    target: &str,
    source: &mut S,
    sink: &mut K,
    shelf: &mut H,
) -> Status
    ensures ends { EndsAsReplayTo name.now target.now
        (record { old = S.left source.old; new = S.left source.new; before = S.faults source.old; now = S.faults source.new })
        (record { old = H.held shelf.old; new = H.held shelf.new; before = H.faults shelf.old; now = H.faults shelf.new })
        (record { old = K.written sink.old; new = K.written sink.new; before = K.faults sink.old; now = K.faults sink.new })
        result }
    ensures unopened { IfUnopened result (source.new ≡ source.old) }
    ensures counts { (S.faults source.old ≤ S.faults source.new) × (K.faults sink.old ≤ K.faults sink.new) × (H.faults shelf.old ≤ H.faults shelf.new) }
{
    match world_of(alloc, name, shelf) {
        Ok(world) => {
            let mut replayer = Replayer::of(alloc, world);
            let status = replay_and_save(alloc, &mut replayer, target, source, sink, shelf);
            mem::forget(replayer);
            status
        }
        Err(why) => say_unopened(alloc, why, sink),
    }
}
