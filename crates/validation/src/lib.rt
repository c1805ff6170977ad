// A validation of a window: the subjects that it selects are judged anew by every rule in force.
#![tactic(auto)]

mod dirty;
mod ends;
mod frame;
mod judge;
mod lists;
mod near;
mod parts;
mod ruled;
mod selection;
mod shown;
mod sorted;
mod window;

pub use near::FeatureIndex;
pub use parts::{RulePart, judge_subject};
pub use ruled::RuledFeatures;
pub use window::validate_counted;
