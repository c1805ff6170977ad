ghost use Rattle.std.specs.Prelude.{◌≡◌};
ghost use Rattle.wkt_text.specs.Stops.{fault_at};
ghost use Rattle.wkt_text.specs.declared.stop.Stop.TheVariants.{NoMemory};

use std::alloc::{AllocError, AllocFailed};
use wkt_terms::WktFault;

/// Why a token does not fit.
#[derive(Clone, Copy)]
pub enum Cause {
    /// None of the others.
    Syntax,
    /// A number is wanted, and it has a fraction.
    OffGrid,
    /// A number is wanted, and it is whole and beyond the reach.
    OutOfReach,
    /// Another word at the front, a modifier in the place of an opening bracket, or a third number of a position.
    Unsupported,
}

/// Why a step is not done.
#[derive(Drop)]
pub enum Stop {
    Refused(Cause),
    NoMemory,
}

impl From<AllocError> for Stop {
    ghost from_gives = { λ _ e. e ≡ NoMemory };

    fn from(_e: AllocError) -> Stop {
        Stop::NoMemory
    }
}

impl<T: Drop> From<AllocFailed<T>> for Stop {
    ghost from_gives = { λ _ e. e ≡ NoMemory };

    fn from(_e: AllocFailed<T>) -> Stop {
        Stop::NoMemory
    }
}

impl Stop {
    /// The fault of a text whose token at the byte `at` was not taken; at the end that is the length of the text.
    pub fn at(self, at: u32) -> WktFault
        ensures { result ≡ fault_at self at }
    {
        match self {
            Stop::Refused(Cause::Syntax) => WktFault::Syntax { at },
            Stop::Refused(Cause::OffGrid) => WktFault::OffGrid { at },
            Stop::Refused(Cause::OutOfReach) => WktFault::OutOfReach { at },
            Stop::Refused(Cause::Unsupported) => WktFault::Unsupported { at },
            Stop::NoMemory => WktFault::NoMemory,
        }
    }
}
