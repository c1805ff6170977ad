/// How the reading of a script ended.
#[derive(Clone, Copy)]
pub enum End {
    /// The source was read to its end.
    AtEnd,
    /// A read failed.
    Failed,
    /// The source gave more bytes than a script may have.
    TooLong,
}
