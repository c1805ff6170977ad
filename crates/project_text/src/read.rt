ghost use Rattle.std.specs.Prelude.{◌≡◌, ℕ, MatchResult, IfOk};
ghost use Rattle.topology_terms.specs.Project.{Project};
ghost use Rattle.project_terms.specs.Texts.{IsProjectText, IsRead, IsFault};
ghost use Rattle.project_terms.specs.declared.project_cause.ProjectCause as terms;
ghost use Rattle.project_text.specs.Reading.{IsProjectFault, IsFaultAt, at_line};

use crate::cut::split_line;
use crate::data::ProjectData;
use crate::draft::Draft;
use crate::fault::{LineFault, ProjectFault};
use project_terms::ProjectCause;
use std::alloc::Global;

// The fault of a text whose line of this number has the fault.
fn at_line(line: usize, fault: LineFault) -> ProjectFault
    ensures { result ≡ at_line line fault }
{
    match fault {
        LineFault::Wrong(cause) => ProjectFault::Wrong { line, cause },
        LineFault::NoMemory => ProjectFault::NoMemory,
    }
}

// The project that the lines say, read one by one.
fn read_lines(alloc: Global, text: &[u8]) -> Result<ProjectData, ProjectFault>
    ensures { MatchResult result (λ p. IsRead text.now p) (λ e. IsProjectFault text.now e) }
{
    let mut draft = Draft::new(alloc);
    let mut rest = text;
    let mut line = 1;
    while !draft.is_over() {
        let Some((first, more)) = split_line(rest) else {
            return Err(ProjectFault::Wrong {
                line,
                cause: ProjectCause::Short,
            });
        };
        match draft.read_line(alloc, first) {
            Ok(()) => {}
            Err(fault) => return Err(at_line(line, fault)),
        }
        rest = more;
        line += 1;
    }
    if !rest.is_empty() {
        return Err(ProjectFault::Wrong {
            line,
            cause: ProjectCause::Form,
        });
    }
    let project = draft.into_project(alloc)?;
    Ok(project)
}

/// What is saved of a topology, from its text: the project of which this is the text, where there is one. `Wrong` names the first
/// line, from 1, that is wrong, and its first cause. Takes steps for each byte of the text, and for each dirty rectangle those of
/// `Index::query`, and one for each before it that it meets.
pub fn read_project(alloc: Global, text: &[u8]) -> Result<ProjectData, ProjectFault>
    ensures found { MatchResult result (λ p. IsRead text.now p) (λ e. IsProjectFault text.now e) }
    ensures text { IfOk result (λ p. IsProjectText text.now p) }
    ensures only { (p : Project) → IsRead text.now p → MatchResult result (λ q. q ≡ p) (λ e. e ≡ ProjectFault.NoMemory) }
    ensures again { (p : Project) → IsProjectText text.now p → MatchResult result (λ q. q ≡ p) (λ e. e ≡ ProjectFault.NoMemory) }
    ensures first { (n : ℕ) (c : terms.ProjectCause) → IsFault text.now n c → MatchResult result (λ _. ⊥) (λ e. IsFaultAt n c e) }
{
    read_lines(alloc, text)
}
