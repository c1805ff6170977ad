use dirty_area::Dirt;
use error_store::Errors;
use feature_store::Store;
use grid_plane::NoMemory;
use project_text::{ProjectData, write_project};
use rules::PosterRules;
use std::alloc::Global;
use topo_core::Topology;

/// What is written as a text, so that two values of one text are equal.
pub trait Value {
    /// The text.
    fn text(&self, alloc: Global) -> Result<Vec<u8>, NoMemory>;
}

// A project without anything in it.
fn empty(alloc: Global) -> ProjectData {
    ProjectData {
        store: Store::new(alloc),
        rules: Vec::new(alloc),
        dirt: Dirt::new(alloc),
        errors: Errors::new(alloc),
    }
}

impl Value for Store {
    fn text(&self, alloc: Global) -> Result<Vec<u8>, NoMemory> {
        let mut project = empty(alloc);
        project.store = self.try_copy(alloc)?;
        write_project(alloc, &project)
    }
}

impl Value for Errors {
    fn text(&self, alloc: Global) -> Result<Vec<u8>, NoMemory> {
        let mut project = empty(alloc);
        project.errors = self.try_copy(alloc)?;
        write_project(alloc, &project)
    }
}

impl Value for Dirt {
    fn text(&self, alloc: Global) -> Result<Vec<u8>, NoMemory> {
        let mut project = empty(alloc);
        project.dirt = self.try_copy(alloc)?;
        write_project(alloc, &project)
    }
}

impl Value for Topology<PosterRules> {
    fn text(&self, alloc: Global) -> Result<Vec<u8>, NoMemory> {
        write_project(alloc, &self.to_data()?)
    }
}
