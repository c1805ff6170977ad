/// The fraction `n / d`.
#[derive(Clone, Copy, PartialEq, Eq, Debug)]
pub struct Fraction {
    pub n: i128,
    pub d: u128,
}

/// A corner of one of several cells: the number of the cell, and where the corner lies, in grid units.
#[derive(Clone, Copy, PartialEq, Eq, Debug)]
pub struct CellCorner {
    pub cell: usize,
    pub x: Fraction,
    pub y: Fraction,
}
