ghost use Rattle.std.specs.Prelude.{◌≡◌};
ghost use Rattle.topo_core.specs.declared.fault.ChangeFault.TheVariants as fault;
ghost use Rattle.topo_core.specs.Faults.{change_fault, edit_cause};

use feature_store::StoreFault;
use grid_plane::NoMemory;
use thiserror::Error;
use topology_terms::Cause;

/// Why a feature was not added, changed or deleted: the first of these that applies.
#[derive(Debug, Drop, Error)]
pub enum ChangeFault {
    /// No class has this number.
    #[error("there is no such class")]
    NoClass,
    /// No live feature has this handle.
    #[error("there is no such feature")]
    NoFeature,
    /// The shape's kind is not the class's.
    #[error("the shape's kind is not the class's")]
    WrongKind,
    /// The next handle is 4,294,967,295, which is never given.
    #[error("the handles are spent")]
    HandlesSpent,
    /// Memory ran out.
    #[error("out of memory")]
    NoMemory,
}

impl ChangeFault {
    /// The cause that is told, and none of out of memory.
    pub fn cause(&self) -> Option<Cause>
        ensures { result ≡ edit_cause self.now }
    {
        match self {
            ChangeFault::NoClass => Some(Cause::NoClass),
            ChangeFault::NoFeature => Some(Cause::NoFeature),
            ChangeFault::WrongKind => Some(Cause::WrongKind),
            ChangeFault::HandlesSpent => Some(Cause::HandlesSpent),
            ChangeFault::NoMemory => None,
        }
    }
}

impl From<NoMemory> for ChangeFault {
    ghost from_gives = { λ _ e. e ≡ fault.NoMemory };

    fn from(_: NoMemory) -> Self {
        ChangeFault::NoMemory
    }
}

impl From<StoreFault> for ChangeFault {
    ghost from_gives = { λ s e. e ≡ change_fault s };

    fn from(fault: StoreFault) -> Self {
        match fault {
            StoreFault::NoClass => ChangeFault::NoClass,
            StoreFault::WrongKind => ChangeFault::WrongKind,
            StoreFault::HandlesSpent => ChangeFault::HandlesSpent,
            _ => ChangeFault::NoMemory,
        }
    }
}
