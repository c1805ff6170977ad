ghost use Rattle.std.specs.Prelude.{◌≡◌, bytes_eq, IfOk};
ghost use Rattle.wkt_terms.specs.Shapes.{shape_text};
ghost use Rattle.project_terms.specs.Texts.{IsReading};
ghost use Rattle.project_text.specs.Reading.{reading_of, IsFaulty};

use grid_plane::NoMemory;
use shape::Shape;
use std::alloc::Global;
use wkt_terms::WktFault;
use wkt_text::{read_wkt, write_wkt};

// The longest text of a shape, in bytes.
const SHAPE_LIMIT: usize = 1_048_576;

/// What comes of the text of a shape.
#[derive(Drop)]
pub enum Reading {
    /// It is no shape's written form: too long, no well-known text, or written otherwise.
    Unwritten,
    /// It is refused for another reason.
    Refused,
    /// It is the written form of this shape.
    Written(Shape),
}

// Whether the text is the written form of the shape.
fn is_written(alloc: Global, text: &[u8], shape: &Shape) -> Result<bool, NoMemory>
    ensures { IfOk result (λ b. b ≡ bytes_eq (shape_text shape.now) text.now) }
{
    let mut written = Vec::new(alloc);
    write_wkt(shape, &mut written)?;
    Ok(written.as_slice() == text)
}

// What comes of a text that has a fault.
fn refused(fault: WktFault) -> Result<Reading, NoMemory>
    ensures { IfOk result (λ r. IsFaulty fault (reading_of r)) }
{
    match fault {
        WktFault::Syntax { .. } => Ok(Reading::Unwritten),
        WktFault::OffGrid { .. } => Ok(Reading::Refused),
        WktFault::OutOfReach { .. } => Ok(Reading::Refused),
        WktFault::Unsupported { .. } => Ok(Reading::Refused),
        WktFault::NotClosed { .. } => Ok(Reading::Refused),
        WktFault::Invalid(_) => Ok(Reading::Refused),
        WktFault::NoMemory => Err(NoMemory),
    }
}

/// What comes of the text of a shape.
pub fn read_shape(alloc: Global, text: &[u8]) -> Result<Reading, NoMemory>
    ensures { IfOk result (λ r. IsReading text.now (reading_of r)) }
{
    if text.len() > SHAPE_LIMIT {
        return Ok(Reading::Unwritten);
    }
    match read_wkt(alloc, text) {
        Ok(shape) => {
            if is_written(alloc, text, &shape)? {
                Ok(Reading::Written(shape))
            } else {
                Ok(Reading::Unwritten)
            }
        }
        Err(fault) => refused(fault),
    }
}
