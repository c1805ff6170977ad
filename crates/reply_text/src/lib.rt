// The texts of replies: each line in ASCII, with one LF at its end, appended to a text.
#![tactic(auto)]

mod corners;
mod errors;
mod listings;
mod numbers;
mod refusal;
mod reply;
mod versions;

pub use refusal::Refusal;
pub use reply::{Reply, push_reply};
pub use topology_terms::Cause;
