// Fixes of errors, and of vertices that features share: each as a plan of edits, which provably does what it is for.
#![tactic(auto)]

mod apart;
mod ask;
mod ends;
mod fault;
mod laws;
mod moved;
mod moves;
mod parts;
mod plan;
mod points;
mod snaps;
mod touch;

pub use apart::explode;
pub use fault::FixFault;
pub use fix_terms::Edit;
pub use laws::{deletion_law, done_law};
pub use moves::{move_all, touched};
pub use plan::Plan;
pub use points::create;
pub use snaps::snap;
pub use touch::has_vertex;
