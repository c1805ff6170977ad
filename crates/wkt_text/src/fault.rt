ghost use Rattle.plane_terms.specs.Shape.{Shape};
ghost use Rattle.plane_terms.specs.ShapeFaults.{IsFault};
ghost use Rattle.wkt_text.specs.Faults.{IsShapeFault};

use plane_terms::ShapeFault;
use wkt_terms::WktFault;

/// A fault of the shape.
pub(crate) fn shape_fault(fault: ShapeFault) -> WktFault
    ensures { (s : Shape) → IsFault s fault → IsShapeFault s result }
{
    match fault {
        ShapeFault::TooFew { .. } => WktFault::Invalid(fault),
        ShapeFault::TooMany { .. } => WktFault::Invalid(fault),
        ShapeFault::Cross { .. } => WktFault::Invalid(fault),
        ShapeFault::Along { .. } => WktFault::Invalid(fault),
        ShapeFault::NoMemory => WktFault::NoMemory,
    }
}
