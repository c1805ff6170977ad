// Exact whole-number geometry of the grid: places, rectangles, half-planes, segments; the names and handles of things.
#![tactic(auto)]

mod fault;
mod half;
mod handles;
mod makers;
mod memory;
mod name;
mod point;
mod rect;
mod seg;

pub use fault::RectFault;
pub use half::{CONSTANT, Half, SLOPE};
pub use handles::Handles;
pub use makers::{left_of, on_line, right_of, x_is, x_over, x_under, y_is, y_over, y_under};
pub use memory::NoMemory;
pub use name::Name;
pub use plane_terms::{Op, Share};
pub use point::{GridPoint, REACH};
pub use rect::Rect;
pub use seg::Seg;
