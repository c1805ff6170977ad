// What each command is answered, and what it leaves.
#![tactic(auto)]

mod answer;
mod classes;
mod corners;
mod editors;
mod edits;
mod fixes;
mod marks;
mod noted;
mod planned;
mod refused;
mod versions;
mod world;

pub use answer::one_answer_law;
pub use reply_text::{Refusal, Reply};
pub use world::World;
