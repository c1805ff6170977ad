// The text of a project: what is saved of a topology, written and read.
#![tactic(auto)]

mod cells;
mod cut;
mod data;
mod draft;
mod fault;
mod fields;
mod forms;
mod indexed;
mod kinds;
mod law;
mod lines;
mod numbers;
mod read;
mod said;
mod shapes;
mod write;

pub use data::ProjectData;
pub use fault::ProjectFault;
pub use law::{one_number_law, one_text_law, project_text_law};
pub use lines::push_error_line;
pub use project_terms::ProjectCause;
pub use read::read_project;
pub use write::{push_blocks, push_errors, push_features, push_rules, write_parts, write_project};
