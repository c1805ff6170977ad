// Dirty areas: a list of rectangles of which none lies in another, and what a window leaves of it.
#![tactic(auto)]

mod block;
mod cut;
mod dirt;
mod finder;
mod left;
mod list;
mod pieces;
mod seeker;

pub use block::Block;
pub use cut::Cut;
pub use dirt::Dirt;
pub use pieces::pieces_law;
