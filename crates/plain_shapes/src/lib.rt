// The first bad pair of a list of segments, and what lies inside it, by the definitions: plain and slow, for comparison.
#![tactic(auto)]

mod inside;
mod search;

pub use inside::is_inside;
pub use search::first_bad_pair;
