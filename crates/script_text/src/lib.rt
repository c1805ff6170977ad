// The lines of a script: the command that a line is, or why it is none.
#![tactic(auto)]

mod classes;
mod command;
mod edits;
mod fault;
mod fields;
mod fixes;
mod listings;
mod marks;
mod number;
mod read;
mod sessions;
mod validations;
mod versions;
mod whole;

pub use command::{Command, Sided};
pub use fault::LineFault;
pub use grid_plane::Name;
pub use line_terms::LineRefusal;
pub use read::{LINE_LIMIT, one_command_law, one_fault_law, read_line};
pub use rule_words::{Kind, RuleKind};
