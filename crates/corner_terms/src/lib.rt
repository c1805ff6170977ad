// The words of corners: how those of several cells are listed.
#![tactic(auto)]

mod cell_corner;

pub use cell_corner::{CellCorner, Fraction};
