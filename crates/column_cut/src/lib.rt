// The inside and the outside of a polygon as convex cells: columns between the abscissas of its vertices, and walls at them.
#![tactic(auto)]

mod column;
mod coordinate;
mod cut;
mod heights;
mod intervals;
pub mod laws;
mod near;
mod open;
mod parity;
mod push;
mod ranked;
mod room;
mod slots;
mod vertices;

pub use cut::{inside, outside};
pub use laws::{between_law, segment_law};
