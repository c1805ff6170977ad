// Well-known text: shapes, read a token at a time, points, heads and positions at once, and written.
#![tactic(auto)]

mod closing;
mod direct;
mod fault;
mod geometry;
mod lists;
mod parts;
mod place;
mod positions;
mod read;
mod rings;
mod spelling;
mod state;
mod stop;
mod token;
mod write;

pub use read::read_wkt;
pub use wkt_terms::WktFault;
pub use write::write_wkt;
