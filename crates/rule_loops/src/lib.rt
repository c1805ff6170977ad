// The loops over a view in which the cells of a family of rules are made.
#![tactic(auto)]

mod ahead;
mod alongside;
mod area;
mod around;
mod bad;
mod beside;
mod blocks;
mod blocks_at;
mod common;
mod counts;
mod crossings;
mod ends;
mod gaps;
mod inner;
mod nearby;
mod off_ends;
mod open;
mod own;
mod own_line;
mod pairs;
mod partners;
mod places;
mod polygon;
mod remainder;
mod shared;
mod sides;
mod single;
mod stacked;
mod stretches;
mod uncovered;

pub use area::area_left;
pub use around::{AtPlace, EndThere, InsideThere, PointThere, SideThere, contains, none_there};
pub use bad::{Bad, Dangle, NoneThere, PseudoNode, bad_ends, bad_place};
pub use beside::common_inside;
pub use common::{Common, with_later, with_side};
pub use gaps::gap_cells;
pub use inner::{common_but_ends, common_inner};
pub use own::own_crossings;
pub use pairs::{Crossing, each_later, each_pair};
pub use partners::{Test, any_passes, whole_without};
pub use polygon::{boundary_of, closed_cells, covers, inside_of, outside_of};
pub use sides::sides_left;
pub use single::{found, whole_finding};
pub use stretches::{common_stretches, own_stretches};
