/// How far a text of a project has come: what the line before was.
#[derive(Clone, Copy, PartialEq, Eq, Debug)]
pub enum Stage {
    /// There is no line before.
    Start,
    /// The line that names the format.
    Title,
    /// The line of the next handle.
    Next,
    /// A class.
    Classes,
    /// A rule in force.
    Rules,
    /// A feature.
    Features,
    /// A dirty rectangle.
    Dirt,
    /// An error or a cell of one.
    Errors,
    /// The last line.
    End,
}
