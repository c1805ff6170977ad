ghost use Rattle.std.specs.Prelude.{◌≡◌, ◌≤◌};
ghost use Rattle.script_terms.specs.Ends.{EndsAs};
ghost use Rattle.outside_terms.specs.Shelves.{KeepsHeld};
ghost use Rattle.opening_terms.specs.Replaying.{EndsAsReplayOf};
ghost use Rattle.topo_run.specs.Replayers.{IsNew};
ghost use Rattle.topo_run.specs.Told.{EndsAt};
ghost use Rattle.topo_run.specs.Unopened.{IfUnopened};

use crate::open::{say_unopened, world_of};
use crate::pieces::Replayer;
use crate::read::answer_script;
use crate::status::status_of;
use crate::stops::Stop;
use command_answers::World;
use outside_terms::Status;
use std::alloc::Global;
use std::mem;
use topo_outside::{Shelf, Sink, Source};

/// Replays the script of a source from the state of this replayer, which is new, and leaves it at the end of what was answered.
pub fn replay_from<S: Source, K: Sink>(
    alloc: Global,
    replayer: &mut Replayer,
    source: &mut S,
    sink: &mut K,
) -> Status
    requires { IsNew replayer.old }
    ensures ends { EndsAt replayer.old.state replayer.new.state
        (record { old = S.left source.old; new = S.left source.new; before = S.faults source.old; now = S.faults source.new })
        (record { old = K.written sink.old; new = K.written sink.new; before = K.faults sink.old; now = K.faults sink.new })
        result }
    ensures counts { (S.faults source.old ≤ S.faults source.new) × (K.faults sink.old ≤ K.faults sink.new) }
{
    match answer_script(alloc, replayer, source, sink) {
        Ok(end) => status_of(end, replayer.refused()),
        Err(Stop::WriteFault) => Status::WriteFault,
        Err(Stop::NoMemory) => Status::NoMemory,
    }
}

/// Replays the script of a source from the empty topology.
pub fn replay<S: Source, K: Sink>(alloc: Global, source: &mut S, sink: &mut K) -> Status
    ensures ends { EndsAs
        (record { old = S.left source.old; new = S.left source.new; before = S.faults source.old; now = S.faults source.new })
        (record { old = K.written sink.old; new = K.written sink.new; before = K.faults sink.old; now = K.faults sink.new })
        result }
    ensures unopened { IfUnopened result (source.new ≡ source.old) }
    ensures counts { (S.faults source.old ≤ S.faults source.new) × (K.faults sink.old ≤ K.faults sink.new) }
{
    let mut replayer = Replayer::of(alloc, World::new(alloc));
    let status = replay_from(alloc, &mut replayer, source, sink);
    mem::forget(replayer);
    status
}

/// Replays the script of a source from the project of this name; `-` names the empty one.
pub fn replay_of<S: Source, K: Sink, H: Shelf>(
    alloc: Global,
    name: &str,
    source: &mut S,
    sink: &mut K,
    shelf: &mut H,
) -> Status
    ensures ends { EndsAsReplayOf name.now
        (record { old = S.left source.old; new = S.left source.new; before = S.faults source.old; now = S.faults source.new })
        (record { old = H.held shelf.old; new = H.held shelf.new; before = H.faults shelf.old; now = H.faults shelf.new })
        (record { old = K.written sink.old; new = K.written sink.new; before = K.faults sink.old; now = K.faults sink.new })
        result }
    ensures unopened { IfUnopened result (source.new ≡ source.old) }
    ensures kept { KeepsHeld (H.held shelf.old) (H.held shelf.new) }
    ensures counts { (S.faults source.old ≤ S.faults source.new) × (K.faults sink.old ≤ K.faults sink.new) × (H.faults shelf.old ≤ H.faults shelf.new) }
{
    match world_of(alloc, name, shelf) {
        Ok(world) => {
            let mut replayer = Replayer::of(alloc, world);
            let status = replay_from(alloc, &mut replayer, source, sink);
            mem::forget(replayer);
            status
        }
        Err(why) => say_unopened(alloc, why, sink),
    }
}
