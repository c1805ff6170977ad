ghost use Rattle.std.specs.Prelude.{◌≡◌, IfOk};
ghost use Rattle.topology_terms.specs.Feature.{feature_of};

use crate::shape::Shape;
use grid_plane::NoMemory;
use std::alloc::Global;
use std::marker::Model;

/// A feature: its handle, the number of its class, its subtype, its shape.
#[derive(Drop)]
pub struct Feature {
    handle: u32,
    class: u16,
    subtype: u8,
    shape: Shape,
}

impl Model for Feature {
    ghost use Rattle.topology_terms.specs.Feature as terms;

    ghost Value = { terms.Feature };

    ghost view = { λ f. terms.feature_of f.handle f.class f.subtype f.shape };
}

impl Feature {
    /// A feature of the subtype 0.
    pub fn new(handle: u32, class: u16, shape: Shape) -> Feature
        ensures { result ≡ feature_of handle class 0 shape }
    {
        Feature::typed(handle, class, 0, shape)
    }

    pub fn typed(handle: u32, class: u16, subtype: u8, shape: Shape) -> Feature
        ensures { result ≡ feature_of handle class subtype shape }
    {
        Feature {
            handle,
            class,
            subtype,
            shape,
        }
    }

    pub fn handle(&self) -> u32
        ensures { result ≡ self.now.handle }
    {
        self.handle
    }

    pub fn class(&self) -> u16
        ensures { result ≡ self.now.class }
    {
        self.class
    }

    pub fn subtype(&self) -> u8
        ensures { result ≡ self.now.subtype }
    {
        self.subtype
    }

    pub fn shape(&self) -> &Shape
        ensures { result.now ≡ self.now.shape }
    {
        &self.shape
    }

    /// The same feature, of another subtype.
    pub fn with_subtype(self, subtype: u8) -> Feature
        ensures { result ≡ record self { subtype = subtype } }
    {
        let Feature {
            handle,
            class,
            subtype: _,
            shape,
        } = self;
        Feature {
            handle,
            class,
            subtype,
            shape,
        }
    }

    /// An equal feature.
    pub fn try_copy(&self, alloc: Global) -> Result<Feature, NoMemory>
        ensures { IfOk result (λ f. f ≡ self.now) }
    {
        Ok(Feature {
            handle: self.handle,
            class: self.class,
            subtype: self.subtype,
            shape: self.shape.try_copy(alloc)?,
        })
    }
}
