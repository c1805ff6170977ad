// The words of a topology: features, rules, entries, projects, changes and why they are refused, soundness.
#![tactic(auto)]

mod cause;
mod extent;

pub use cause::Cause;
pub use extent::Extent;
