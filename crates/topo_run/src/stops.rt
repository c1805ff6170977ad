ghost use Rattle.std.specs.Prelude.{◌≡◌};
ghost use Rattle.outside_terms.specs.declared.status.Status.TheVariants as status;
ghost use Rattle.topo_run.specs.Stops.{stop_of};
ghost use Rattle.topo_run.specs.declared.stops.Stop.TheVariants as stop;

use grid_plane::NoMemory;
use topo_outside::SinkFault;

/// Why a replay stops before its end.
#[derive(Clone, Copy, Debug, PartialEq, Eq)]
pub enum Stop {
    /// The sink failed, or took nothing.
    WriteFault,
    /// Memory ran out.
    NoMemory,
}

impl From<SinkFault> for Stop {
    ghost from_gives = { stop_of };

    fn from(fault: SinkFault) -> Self {
        match fault {
            SinkFault::Failed => Stop::WriteFault,
            SinkFault::NoMemory => Stop::NoMemory,
        }
    }
}

impl From<NoMemory> for Stop {
    ghost from_gives = { λ _ e. e ≡ stop.NoMemory };

    fn from(_: NoMemory) -> Self {
        Stop::NoMemory
    }
}
