ghost use Rattle.std.specs.Prelude.{◌≡◌};
ghost use Rattle.project_text.specs.declared.fault.LineFault.TheVariants as line;
ghost use Rattle.project_text.specs.declared.fault.ProjectFault.TheVariants as fault;

use grid_plane::NoMemory;
use project_terms::ProjectCause;
use std::alloc::{AllocError, AllocFailed};
use thiserror::Error;

/// Why a text is no project's.
#[derive(Debug, Drop, Error)]
pub enum ProjectFault {
    /// The line of this number, from 1, is the first that is wrong, and this is its first cause.
    #[error("a line of the project is wrong")]
    Wrong { line: usize, cause: ProjectCause },
    /// Memory ran out, which says nothing of the text.
    #[error("out of memory")]
    NoMemory,
}

impl From<NoMemory> for ProjectFault {
    ghost from_gives = { λ _ e. e ≡ fault.NoMemory };

    fn from(_: NoMemory) -> Self {
        ProjectFault::NoMemory
    }
}

/// Why a line was not read.
#[derive(Clone, Copy, Debug)]
pub enum LineFault {
    /// The line is wrong.
    Wrong(ProjectCause),
    /// Memory ran out, which says nothing of the line.
    NoMemory,
}

impl From<NoMemory> for LineFault {
    ghost from_gives = { λ _ e. e ≡ line.NoMemory };

    fn from(_: NoMemory) -> Self {
        LineFault::NoMemory
    }
}

impl From<AllocError> for LineFault {
    ghost from_gives = { λ _ e. e ≡ line.NoMemory };

    fn from(_: AllocError) -> Self {
        LineFault::NoMemory
    }
}

impl<T: Drop> From<AllocFailed<T>> for LineFault {
    ghost from_gives = { λ _ e. e ≡ line.NoMemory };

    fn from(_: AllocFailed<T>) -> Self {
        LineFault::NoMemory
    }
}
