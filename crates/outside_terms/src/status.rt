/// How the program ends.
#[derive(Clone, Copy)]
pub enum Status {
    /// All was done: a script was answered and none of its lines was refused, or a project was checked and is sound.
    Done,
    /// All lines were answered, at least one was refused.
    Refused,
    /// The words are none that the program knows.
    Usage,
    /// A read failed.
    ReadFault,
    /// A write failed, or took nothing.
    WriteFault,
    /// Out of memory.
    NoMemory,
    /// What stands under the project's name is no project's text.
    WrongText,
    /// The shelf failed to give the project.
    OpenFault,
    /// The shelf failed to take the project.
    SaveFault,
    /// The project was checked, and is not sound.
    Unsound,
    /// The source gave more than a script may have.
    TooLong,
    /// Nothing stands under the project's name.
    NoProject,
}
