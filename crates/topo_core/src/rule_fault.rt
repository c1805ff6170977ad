ghost use Rattle.std.specs.Prelude.{◌≡◌};
ghost use Rattle.topo_core.specs.Faults.{row_cause};
ghost use Rattle.topo_core.specs.declared.rule_fault.RuleFault.TheVariants as fault;

use grid_plane::NoMemory;
use std::alloc::AllocError;
use thiserror::Error;
use topology_terms::Cause;

/// Why a rule was not added: the first of these that applies.
#[derive(Debug, Drop, Error)]
pub enum RuleFault {
    /// No class has the number of the origin; or that of the destination, where the rule's kind takes one.
    #[error("there is no such class")]
    NoClass,
    /// A class has not the kind of shape that the rule takes, a feature could be on both sides, or the rule takes no destination.
    #[error("the classes do not fit the rule")]
    Unfit,
    /// An equal rule is in force.
    #[error("the rule is in force already, as number {number}")]
    There {
        /// Its number.
        number: u16,
    },
    /// There are 256 rules.
    #[error("there are 256 rules")]
    Full,
    /// Memory ran out.
    #[error("out of memory")]
    NoMemory,
}

impl RuleFault {
    /// The cause that is told, and none of out of memory.
    pub fn cause(&self) -> Option<Cause>
        ensures { result ≡ row_cause self.now }
    {
        match self {
            RuleFault::NoClass => Some(Cause::NoClass),
            RuleFault::Unfit => Some(Cause::Unfit),
            RuleFault::There { .. } => Some(Cause::RuleThere),
            RuleFault::Full => Some(Cause::RulesFull),
            RuleFault::NoMemory => None,
        }
    }
}

impl From<NoMemory> for RuleFault {
    ghost from_gives = { λ _ e. e ≡ fault.NoMemory };

    fn from(_: NoMemory) -> Self {
        RuleFault::NoMemory
    }
}

impl From<AllocError> for RuleFault {
    ghost from_gives = { λ _ e. e ≡ fault.NoMemory };

    fn from(_: AllocError) -> Self {
        RuleFault::NoMemory
    }
}
