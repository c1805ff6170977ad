// Whether a stored project is sound, and else the first rule and subject at which it is not.
#![tactic(auto)]

mod check;
mod pair;
mod subjects;

pub use check::{Unsound, check_project};
