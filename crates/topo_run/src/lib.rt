// The program: words, source, sink and shelf in, status out.
#![tactic(auto)]

mod answer;
mod check;
mod law;
mod lines;
mod open;
mod pieces;
mod program;
mod read;
mod replay;
mod report;
mod save;
mod status;
mod stops;
mod town;
mod words;
mod write;

pub use law::{exact_undo_law, fix_law, one_run_law, versions_law};
pub use pieces::Replayer;
pub use program::{USAGE, run};
pub use stops::Stop;
