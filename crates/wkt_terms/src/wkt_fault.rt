use plane_terms::ShapeFault;

/// Why a text is not read: the first of these that applies. `at` is the number of bytes before the token, at the end the length of the text.
#[derive(Clone, Copy)]
pub enum WktFault {
    /// The token does not fit, and none of the next three says why.
    Syntax { at: u32 },
    /// A number is wanted, and it has a fraction.
    OffGrid { at: u32 },
    /// A number is wanted, and it is whole and beyond the reach.
    OutOfReach { at: u32 },
    /// Another kind of geometry, `Z`, `M`, `ZM` or `EMPTY` in the place of an opening bracket, or a third number of a position.
    Unsupported { at: u32 },
    /// The first ring whose first and last positions differ, counted from 0 through all parts.
    NotClosed { ring: u32 },
    /// The vertices make no shape, for this reason, which is not out of memory.
    Invalid(ShapeFault),
    NoMemory,
}
