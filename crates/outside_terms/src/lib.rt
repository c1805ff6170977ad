// The words of the outside: counts of faults, what is read of a script, how a run ends.
#![tactic(auto)]

mod end;
mod status;

pub use end::End;
pub use status::Status;
