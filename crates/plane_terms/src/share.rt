/// What two segments have in common.
#[derive(Clone, Copy, PartialEq, Eq, Debug)]
pub enum Share {
    /// No point.
    Nothing,
    /// Two points or more.
    Along,
    /// One point, an end of neither.
    Cross,
    /// One point, an end of at least one.
    Touch,
}
