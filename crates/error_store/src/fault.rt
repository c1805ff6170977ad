ghost use Rattle.std.specs.Prelude.{◌≡◌};
ghost use Rattle.error_store.specs.Marking.{fault_cause};

use thiserror::Error;
use topology_terms::Cause;

/// Why the mark of an error was not set: the first of these that applies.
#[derive(Debug, Drop, Error)]
pub enum MarkFault {
    /// No error has this key.
    #[error("there is no such error")]
    NoError,
    /// The mark is so already.
    #[error("the mark is so already")]
    AlreadySo,
}

impl MarkFault {
    /// The cause that is told.
    pub fn cause(&self) -> Cause
        ensures { result ≡ fault_cause self.now }
    {
        match self {
            MarkFault::NoError => Cause::NoError,
            MarkFault::AlreadySo => Cause::AlreadySo,
        }
    }
}
