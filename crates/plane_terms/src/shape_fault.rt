/// Why parts are no shape: the first of these that applies.
#[derive(Clone, Copy, PartialEq, Eq, Debug)]
pub enum ShapeFault {
    /// Where there is no part, or a part of a polygon has no ring, `part` is 0. Else it is the first part of a line of which
    /// fewer than 2 vertices are kept, or the first ring of which fewer than 3 are: rings are numbered from 0 through all parts.
    TooFew { part: u32 },
    /// The number of vertices that are kept is over 2,000.
    TooMany { count: u32 },
    /// The segments `i < j` of a polygon have one common point, an end of neither. No pair before it, in order of `i`, then
    /// `j`, is refused.
    Cross { i: u32, j: u32 },
    /// The segments `i < j` of a polygon have two common points or more. No pair before it is refused.
    Along { i: u32, j: u32 },
    /// Memory ran out, which says nothing of the parts.
    NoMemory,
}
