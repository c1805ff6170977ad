// The made town: its script, the words that ask for it, the lines of its summary.
#![tactic(auto)]

mod lines;
mod number;
mod request;
mod rows;
mod script;
mod summary;
mod town;
mod words;

pub use request::{TownRequest, town_request};
pub use script::town_script;
pub use summary::{TownCounts, byte_sum, push_summary};
