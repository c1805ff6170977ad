/// Why a line of a project's text is wrong: the first of these that applies.
#[derive(Clone, Copy, PartialEq, Eq, Debug)]
pub enum ProjectCause {
    /// The text ends before the line, or within it.
    Short,
    /// No line that may stand here is spelled so; or it stands behind the end.
    Form,
    /// The text of a shape is refused, and not for its syntax.
    Shape,
    /// A number is beyond its limits.
    Range,
    /// A class or a rule stands in no line before, or does not fit.
    Unknown,
    /// It stands in the wrong order, or a second time.
    Order,
}
