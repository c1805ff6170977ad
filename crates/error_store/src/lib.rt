// The errors of any rule: entries with their cells, frames and marks, replaced by subject.
#![tactic(auto)]

mod compare;
mod cut;
mod entry;
mod errors;
mod fault;
mod frame_set;
mod frames;
mod gone;
mod key;
mod list;
mod marks;
mod pair;
mod replace;
mod rule_frames;
mod runs;
mod walk;

pub use entry::Entry;
pub use errors::Errors;
pub use fault::MarkFault;
pub use key::Key;
pub use list::find_in;
pub use pair::Pair;
