ghost use Rattle.std.specs.Prelude.{◌≡◌};
ghost use Rattle.plane_terms.specs.declared.shape_fault.ShapeFault.TheVariants as shape_fault;

use plane_terms::ShapeFault;
use std::alloc::{AllocError, AllocFailed};

/// Memory ran out.
#[derive(Clone, Copy, PartialEq, Eq, Debug)]
pub struct NoMemory;

impl From<AllocError> for NoMemory {
    fn from(_: AllocError) -> Self {
        NoMemory
    }
}

impl<T: Drop> From<AllocFailed<T>> for NoMemory {
    fn from(_: AllocFailed<T>) -> Self {
        NoMemory
    }
}

impl From<NoMemory> for ShapeFault {
    ghost from_gives = { λ _ e. e ≡ shape_fault.NoMemory };

    fn from(_: NoMemory) -> Self {
        ShapeFault::NoMemory
    }
}
