ghost use Rattle.std.specs.Prelude.{◌≡◌, ◌≤◌, IfOk, string_bytes};
ghost use Rattle.topology_terms.specs.Poster.{poster};
ghost use Rattle.project_terms.specs.Records.{IsRecord};
ghost use Rattle.outside_terms.specs.Shelves.{KeepsHeld};
ghost use Rattle.opening_terms.specs.Checking.{EndsChecked, EndsAsCheck};
ghost use Rattle.project_check.specs.Checked.{IsChecked};
ghost use Rattle.topo_run.specs.Verdicts.{checked_text, checked_status};

use crate::open::{open, say_unopened};
use crate::write::say;
use grid_plane::NoMemory;
use outside_terms::Status;
use project_check::Unsound;
use project_text::ProjectData;
use rules::PosterRules;
use std::alloc::{AllocError, Global};
use std::mem;
use topo_core::Topology;
use topo_outside::{Shelf, Sink};

// None where the project is sound, and else the first rule and subject at which it is not.
fn check_data(alloc: Global, saved: ProjectData) -> Result<Option<Unsound>, NoMemory>
    requires { IsRecord saved }
    ensures { IfOk result (λ found. IsChecked poster saved found) }
{
    let topology = Topology::from_data(alloc, PosterRules, saved)?;
    let found = topology.check();
    mem::forget(topology);
    found
}

// The line that says what a check found.
fn checked_text(alloc: Global, found: Option<Unsound>) -> Result<String, AllocError>
    ensures { IfOk result (λ text. string_bytes text ≡ checked_text found) }
{
    match found {
        None => String::from_str(alloc, "sound\n"),
        Some(Unsound { rule, subject }) => format!(in alloc; "unsound {rule} {subject}\n"),
    }
}

fn checked_status(found: Option<Unsound>) -> Status
    ensures { result ≡ checked_status found }
{
    match found {
        None => Status::Done,
        Some(_) => Status::Unsound,
    }
}

fn say_checked<K: Sink>(alloc: Global, saved: ProjectData, sink: &mut K) -> Status
    requires { IsRecord saved }
    ensures ends { EndsChecked saved
        (record { old = K.written sink.old; new = K.written sink.new; before = K.faults sink.old; now = K.faults sink.new }) result }
    ensures later { K.faults sink.old ≤ K.faults sink.new }
{
    let Ok(found) = check_data(alloc, saved) else {
        return Status::NoMemory;
    };
    let Ok(text) = checked_text(alloc, found) else {
        return Status::NoMemory;
    };
    say(sink, text.as_bytes(), checked_status(found))
}

/// Checks the project of this name, and writes `sound`, or the first rule and subject at which it is not.
pub fn check<K: Sink, H: Shelf>(alloc: Global, name: &str, sink: &mut K, shelf: &mut H) -> Status
    ensures ends { EndsAsCheck name.now
        (record { old = H.held shelf.old; new = H.held shelf.new; before = H.faults shelf.old; now = H.faults shelf.new })
        (record { old = K.written sink.old; new = K.written sink.new; before = K.faults sink.old; now = K.faults sink.new }) result }
    ensures kept { KeepsHeld (H.held shelf.old) (H.held shelf.new) }
    ensures counts { (K.faults sink.old ≤ K.faults sink.new) × (H.faults shelf.old ≤ H.faults shelf.new) }
{
    match open(alloc, name, shelf) {
        Ok(saved) => say_checked(alloc, saved, sink),
        Err(why) => say_unopened(alloc, why, sink),
    }
}
