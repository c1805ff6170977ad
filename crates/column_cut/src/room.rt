ghost use Rattle.std.specs.Prelude.{◌≡◌, []};

use crate::coordinate::Coordinate;
use crate::intervals::Stretch;
use crate::ranked::Ranked;
use crate::slots::Slot;
use grid_plane::{Half, Seg};
use std::alloc::Global;

/// Lists for the work on a wall. What they have between two walls means nothing: they keep their memory for the next.
#[derive(Drop)]
pub(crate) struct WallRoom {
    pub(crate) halves: Vec<Half>,
    pub(crate) values: Vec<i32>,
    pub(crate) ordinates: Vec<Coordinate>,
    pub(crate) upright: Vec<Seg>,
    pub(crate) stretches: Vec<Stretch>,
}

/// The same for a wall and the column to its right.
#[derive(Drop)]
pub(crate) struct Room {
    pub(crate) column: Vec<Ranked>,
    pub(crate) slots: Vec<Slot>,
    pub(crate) wall: WallRoom,
}

impl Room {
    /// It takes no memory yet.
    pub(crate) fn new(alloc: Global) -> Room
        ensures column { result.column.items ≡ [] }
        ensures slots { result.slots.items ≡ [] }
    {
        Room {
            column: Vec::new(alloc),
            slots: Vec::new(alloc),
            wall: WallRoom {
                halves: Vec::new(alloc),
                values: Vec::new(alloc),
                ordinates: Vec::new(alloc),
                upright: Vec::new(alloc),
                stretches: Vec::new(alloc),
            },
        }
    }
}
