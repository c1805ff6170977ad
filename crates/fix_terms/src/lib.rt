// The words of fixes: plans of edits, and what they leave of the features.
#![tactic(auto)]

mod edit;

pub use edit::Edit;
