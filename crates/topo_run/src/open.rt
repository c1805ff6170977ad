ghost use Rattle.std.specs.Prelude.{◌≡◌, ◌≤◌, ℕ, List, IfOk, IfErr, string_bytes};
ghost use Rattle.topology_terms.specs.Project.{Project};
ghost use Rattle.project_terms.specs.Records.{IsRecord};
ghost use Rattle.outside_terms.specs.Shelves.{KeepsHeld, Visit};
ghost use Rattle.opening_terms.specs.Opening.{IsUnder, EndsUnopened, cause_word, wrong_text};
ghost use Rattle.opening_terms.specs.Replaying.{IsStart, start_of};
ghost use Rattle.topo_run.specs.Unopened.{unopened_of, unread_of, IsUnopened, IsNoStart};

use crate::write::say;
use command_answers::World;
use outside_terms::Status;
use project_text::{ProjectCause, ProjectData, ProjectFault, read_project};
use rules::PosterRules;
use std::alloc::{AllocError, Global};
use topo_core::Topology;
use topo_outside::{Shelf, ShelfFault, Sink};

/// Why a project is not opened.
#[derive(Clone, Copy)]
pub enum NotOpened {
    /// The shelf failed.
    Failed,
    /// Nothing stands under the name.
    Absent,
    /// The text under the name is wrong: its first wrong line, from 1, and the first cause.
    Wrong(usize, ProjectCause),
    /// Out of memory.
    NoMemory,
}

impl From<ShelfFault> for NotOpened {
    ghost from_gives = { unopened_of };

    fn from(fault: ShelfFault) -> Self {
        match fault {
            ShelfFault::Failed => NotOpened::Failed,
            ShelfFault::NoMemory => NotOpened::NoMemory,
        }
    }
}

impl From<ProjectFault> for NotOpened {
    ghost from_gives = { unread_of };

    fn from(fault: ProjectFault) -> Self {
        match fault {
            ProjectFault::Wrong { line, cause } => NotOpened::Wrong(line, cause),
            ProjectFault::NoMemory => NotOpened::NoMemory,
        }
    }
}

/// Opens the project of this name. The shelf holds what it held.
pub fn open<H: Shelf>(alloc: Global, name: &str, shelf: &mut H) -> Result<ProjectData, NotOpened>
    ensures opened { IfOk result (IsUnder (H.held shelf.old) name.now) }
    ensures valid { IfOk result (λ p. IsRecord p) }
    ensures unopened { IfErr result (IsUnopened name.now (record { old = H.held shelf.old; new = H.held shelf.new; before = H.faults shelf.old; now = H.faults shelf.new })) }
    ensures kept { KeepsHeld (H.held shelf.old) (H.held shelf.new) }
    ensures later { H.faults shelf.old ≤ H.faults shelf.new }
{
    match shelf.get(alloc, name)? {
        Some(bytes) => Ok(read_project(alloc, &bytes)?),
        None => Err(NotOpened::Absent),
    }
}

/// The state that a replay of this name starts from: the project, and no session; `-` names the empty project.
pub fn world_of<H: Shelf>(alloc: Global, name: &str, shelf: &mut H) -> Result<World, NotOpened>
    ensures start { IfOk result (λ w. (p : Project) × IsStart (H.held shelf.old) name.now p × (w ≡ start_of p)) }
    ensures none { IfErr result (IsNoStart name.now (record { old = H.held shelf.old; new = H.held shelf.new; before = H.faults shelf.old; now = H.faults shelf.new })) }
    ensures kept { KeepsHeld (H.held shelf.old) (H.held shelf.new) }
    ensures later { H.faults shelf.old ≤ H.faults shelf.new }
{
    if name == "-" {
        return Ok(World::new(alloc));
    }
    let saved = open(alloc, name, shelf)?;
    match Topology::from_data(alloc, PosterRules, saved) {
        Ok(topology) => Ok(World::of(alloc, topology)),
        Err(_) => Err(NotOpened::NoMemory),
    }
}

fn cause_word(cause: ProjectCause) -> &'static str
    ensures { result.now ≡ cause_word cause }
{
    match cause {
        ProjectCause::Short => "short",
        ProjectCause::Form => "form",
        ProjectCause::Shape => "shape",
        ProjectCause::Range => "range",
        ProjectCause::Unknown => "unknown",
        ProjectCause::Order => "order",
    }
}

// The line of a wrong text.
fn wrong_text(alloc: Global, line: usize, cause: ProjectCause) -> Result<String, AllocError>
    ensures { IfOk result (λ text. string_bytes text ≡ wrong_text line cause) }
{
    let word = cause_word(cause);
    format!(in alloc; "project refused line {line} {word}\n")
}

/// Says why a project was not opened: of a wrong text, its line is written.
pub fn say_unopened<K: Sink>(alloc: Global, why: NotOpened, sink: &mut K) -> Status
    ensures ends { (name : List ℕ) (h : Visit) → IsUnopened name h why → EndsUnopened name h
        (record { old = K.written sink.old; new = K.written sink.new; before = K.faults sink.old; now = K.faults sink.new }) result }
    ensures later { K.faults sink.old ≤ K.faults sink.new }
{
    match why {
        NotOpened::Failed => Status::OpenFault,
        NotOpened::Absent => Status::NoProject,
        NotOpened::NoMemory => Status::NoMemory,
        NotOpened::Wrong(line, cause) => match wrong_text(alloc, line, cause) {
            Ok(text) => say(sink, text.as_bytes(), Status::WrongText),
            Err(_) => Status::NoMemory,
        },
    }
}
