// The words of the text of a project: its lines, what is read of them, and why a text is refused.
#![tactic(auto)]

mod project_cause;
mod stage;

pub use project_cause::ProjectCause;
pub use stage::Stage;
