// Rules that a caller boxes and hands in: what each keeps, and how one is asked.
#![tactic(auto)]

mod asking;
mod found;
mod outside_rule;
mod picks;

pub use asking::{ask, ask_first};
pub use found::find;
pub use outside_rule::OutsideRule;
pub use picks::Picks;
