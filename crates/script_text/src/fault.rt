ghost use Rattle.std.specs.Prelude.{◌≡◌};
ghost use Rattle.script_text.specs.Faults.{fault_of};

use line_terms::LineRefusal;
use wkt_terms::WktFault;

/// Why a line was not read.
#[derive(Clone, Copy, PartialEq, Eq, Debug)]
pub enum LineFault {
    /// It is no command's.
    Refused(LineRefusal),
    /// Memory ran out, which says nothing of the line.
    NoMemory,
}

impl From<WktFault> for LineFault {
    ghost from_gives = { λ fault e. e ≡ fault_of fault };

    fn from(fault: WktFault) -> Self {
        match fault {
            WktFault::Syntax { at: _ } => LineFault::Refused(LineRefusal::NotALine),
            WktFault::OffGrid { at } => LineFault::Refused(LineRefusal::OffGrid { at }),
            WktFault::OutOfReach { at } => LineFault::Refused(LineRefusal::OutOfReach { at }),
            WktFault::Unsupported { at } => LineFault::Refused(LineRefusal::Unsupported { at }),
            WktFault::NotClosed { ring } => LineFault::Refused(LineRefusal::NotClosed { ring }),
            WktFault::Invalid(fault) => LineFault::Refused(LineRefusal::Invalid(fault)),
            WktFault::NoMemory => LineFault::NoMemory,
        }
    }
}
