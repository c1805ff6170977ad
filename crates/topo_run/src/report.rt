ghost use Rattle.std.specs.Prelude.{◌≡◌, ◌≤◌, IfOk};
ghost use Rattle.outside_terms.specs.Shelves.{KeepsHeld};
ghost use Rattle.script_terms.specs.Report.{report_of};
ghost use Rattle.opening_terms.specs.Reporting.{EndsReported, EndsAsReport};

use crate::open::{open, say_unopened};
use crate::write::say;
use grid_plane::NoMemory;
use outside_terms::Status;
use project_text::ProjectData;
use report_text::push_report;
use std::alloc::Global;
use std::mem;
use topo_outside::{Shelf, Sink};

fn report_of(alloc: Global, saved: &ProjectData) -> Result<Vec<u8>, NoMemory>
    ensures { IfOk result (λ text. text.items ≡ report_of saved.now.rules saved.now.entries) }
{
    let mut text = Vec::new(alloc);
    push_report(alloc, &mut text, &saved.rules, &saved.errors)?;
    Ok(text)
}

fn say_report<K: Sink>(alloc: Global, saved: &ProjectData, sink: &mut K) -> Status
    ensures ends { EndsReported saved.now
        (record { old = K.written sink.old; new = K.written sink.new; before = K.faults sink.old; now = K.faults sink.new }) result }
    ensures later { K.faults sink.old ≤ K.faults sink.new }
{
    match report_of(alloc, saved) {
        Ok(text) => say(sink, &text, Status::Done),
        Err(_) => Status::NoMemory,
    }
}

/// Writes the report of the project of this name.
pub fn report<K: Sink, H: Shelf>(alloc: Global, name: &str, sink: &mut K, shelf: &mut H) -> Status
    ensures ends { EndsAsReport name.now
        (record { old = H.held shelf.old; new = H.held shelf.new; before = H.faults shelf.old; now = H.faults shelf.new })
        (record { old = K.written sink.old; new = K.written sink.new; before = K.faults sink.old; now = K.faults sink.new }) result }
    ensures kept { KeepsHeld (H.held shelf.old) (H.held shelf.new) }
    ensures counts { (K.faults sink.old ≤ K.faults sink.new) × (H.faults shelf.old ≤ H.faults shelf.new) }
{
    match open(alloc, name, shelf) {
        Ok(saved) => {
            let status = say_report(alloc, &saved, sink);
            mem::forget(saved);
            status
        }
        Err(why) => say_unopened(alloc, why, sink),
    }
}
