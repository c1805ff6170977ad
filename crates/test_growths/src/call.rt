use grid_plane::NoMemory;
use std::alloc::Global;

/// How a call ended.
#[derive(Clone, Copy, PartialEq, Eq)]
pub enum Made {
    /// It was done, or refused for another cause than memory.
    Done,
    /// It was refused: out of memory.
    NoMemory,
}

/// A call of a value.
pub trait Call<V> {
    /// Its name, and that of what it is given.
    fn name(&self) -> &str;

    /// Makes the call; an `Err` where there is no memory for what it is given.
    fn make(&self, alloc: Global, value: &mut V) -> Result<Made, NoMemory>;
}
