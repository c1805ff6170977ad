use plane_terms::ShapeFault;

/// Why a line is no command's. A place is the number of bytes before it in the text of the line's shape.
#[derive(Clone, Copy, PartialEq, Eq, Debug)]
pub enum LineRefusal {
    /// It has the form of no line, or its shape's text has a fault of syntax.
    NotALine,
    /// It has more bytes than a line may have.
    TooLong,
    /// A number of its shape is not whole.
    OffGrid { at: u32 },
    /// A number of its shape is beyond the reach; or of its window or its places, and then `at` is the number's position, from 0.
    OutOfReach { at: u32 },
    /// Its shape is of a kind that is not read.
    Unsupported { at: u32 },
    /// The first ring, from 0, of its shape that does not end where it begins.
    NotClosed { ring: u32 },
    /// Its shape is not valid.
    Invalid(ShapeFault),
    /// A greatest coordinate of its window is below its least one.
    Reversed,
}
