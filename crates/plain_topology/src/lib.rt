// The definitions as a plain slow program: each contract is the definition itself, and nothing is kept from call to call.
#![tactic(auto)]

mod dirt;
mod entries;
mod headline;
mod overlaps;
mod pairs;
mod points;

pub use dirt::{covers, holds_place};
pub use entries::{PlainEntry, has_cells_at};
pub use headline::{headline_holds, says_headline_at};
pub use overlaps::{is_overlap_at, is_overlap_with_at};
pub use pairs::{broken_pairs, partners_of};
pub use points::{PlainPoint, is_broken_at};
