/// What of its subject an error or a finding is of.
#[derive(Clone, Copy, PartialEq, Eq, Debug)]
pub enum Extent {
    /// The whole subject, which breaks its rule as such; there are no cells.
    Whole,
    /// The points of its cells, at which the subject breaks its rule.
    Cells,
}
