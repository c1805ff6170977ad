ghost use Rattle.std.specs.Prelude.{◌≡◌};
ghost use Rattle.feature_store.specs.Faults.{store_cause};
ghost use Rattle.feature_store.specs.declared.fault.StoreFault.TheVariants as fault;

use grid_plane::NoMemory;
use std::alloc::{AllocError, AllocFailed};
use thiserror::Error;
use topology_terms::Cause;

/// Why a class or a feature was not added: the first of these that applies.
#[derive(Debug, Drop, Error)]
pub enum StoreFault {
    /// There is a class of this name.
    #[error("the class name is taken")]
    ClassTaken,
    /// There are 64 classes.
    #[error("the classes are full")]
    ClassesFull,
    /// No class has this number.
    #[error("there is no such class")]
    NoClass,
    /// The shape's kind is not the class's.
    #[error("the shape's kind is not the class's")]
    WrongKind,
    /// The next handle is 4,294,967,295, which is never given.
    #[error("the handles are spent")]
    HandlesSpent,
    /// Memory ran out.
    #[error("out of memory")]
    NoMemory,
}

impl StoreFault {
    /// The cause that is told, and none of out of memory.
    pub fn cause(&self) -> Option<Cause>
        ensures { result ≡ store_cause self.now }
    {
        match self {
            StoreFault::ClassTaken => Some(Cause::ClassTaken),
            StoreFault::ClassesFull => Some(Cause::ClassesFull),
            StoreFault::NoClass => Some(Cause::NoClass),
            StoreFault::WrongKind => Some(Cause::WrongKind),
            StoreFault::HandlesSpent => Some(Cause::HandlesSpent),
            StoreFault::NoMemory => None,
        }
    }
}

impl From<NoMemory> for StoreFault {
    ghost from_gives = { λ _ e. e ≡ fault.NoMemory };

    fn from(_: NoMemory) -> Self {
        StoreFault::NoMemory
    }
}

impl From<AllocError> for StoreFault {
    ghost from_gives = { λ _ e. e ≡ fault.NoMemory };

    fn from(_: AllocError) -> Self {
        StoreFault::NoMemory
    }
}

impl<T: Drop> From<AllocFailed<T>> for StoreFault {
    ghost from_gives = { λ _ e. e ≡ fault.NoMemory };

    fn from(_: AllocFailed<T>) -> Self {
        StoreFault::NoMemory
    }
}
