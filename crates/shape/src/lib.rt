// Shapes of features: points, lines and polygons of the grid, exactly valid or refused by name; and features.
#![tactic(auto)]

mod counts;
mod envelope;
mod feature;
mod form;
mod frames;
mod line;
mod pairs;
mod parts;
mod polygon;
mod same;
mod segments;
mod shape;
mod vertices;

pub use feature::Feature;
pub use plane_terms::{Kind, ShapeFault};
pub use same::{are_same_parts, copy_of_parts};
pub use shape::Shape;
