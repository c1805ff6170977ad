// The feature store: classes and features, a finite map of handles.
#![tactic(auto)]

mod class;
mod fault;
mod features;
mod slot;
mod slots;
mod store;

pub use fault::StoreFault;
pub use features::Features;
pub use grid_plane::{Name, NoMemory};
pub use shape::{Feature, Kind, Shape};
pub use slot::Slot;
pub use store::Store;
