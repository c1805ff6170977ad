// Rules that registries want, as a caller of the library writes them: each in a file of its own.
#![tactic(auto)]

mod inside_rectangle;
mod min_area;
mod min_width;
mod most_parts;
mod most_vertices;
mod no_hole;

pub use inside_rectangle::InsideRectangle;
pub use min_area::MinArea;
pub use min_width::MinWidth;
pub use most_parts::MostParts;
pub use most_vertices::MostVertices;
pub use no_hole::NoHole;
