ghost use Rattle.std.specs.Prelude.{◌≡◌, Some, None, MatchOption, IfSome, IfOk};
ghost use Rattle.feature_store.specs.Slots.{handle_in, feature_in, slot_of};

use grid_plane::NoMemory;
use shape::Feature;
use std::alloc::Global;

/// The place of the feature of one handle: filled with it, or empty.
#[derive(Drop)]
pub enum Slot {
    Filled(Feature),
    Empty(u32),
}

impl Slot {
    // The slot of this handle, filled with what was kept, or empty where nothing was.
    pub(crate) fn of(handle: u32, kept: Option<Feature>) -> Slot
        ensures { result ≡ slot_of handle kept }
    {
        match kept {
            Some(feature) => Slot::Filled(feature),
            None => Slot::Empty(handle),
        }
    }

    // What stood in the slot.
    pub(crate) fn into_feature(self) -> Option<Feature>
        ensures { result ≡ feature_in self }
    {
        match self {
            Slot::Filled(feature) => Some(feature),
            Slot::Empty(_) => None,
        }
    }

    pub(crate) fn handle(&self) -> u32
        ensures { result ≡ handle_in self.now }
    {
        match self {
            Slot::Filled(feature) => feature.handle(),
            Slot::Empty(handle) => *handle,
        }
    }

    /// The feature in the slot, where it is filled.
    pub fn feature(&self) -> Option<&Feature>
        ensures { MatchOption result (feature_in self.now ≡ None) (λ f. feature_in self.now ≡ Some f.now) }
    {
        match self {
            Slot::Filled(feature) => Some(feature),
            Slot::Empty(_) => None,
        }
    }

    // An equal slot.
    pub(crate) fn try_copy(&self, alloc: Global) -> Result<Slot, NoMemory>
        ensures { IfOk result (λ s. s ≡ self.now) }
    {
        match self {
            Slot::Filled(feature) => Ok(Slot::Filled(feature.try_copy(alloc)?)),
            Slot::Empty(handle) => Ok(Slot::Empty(*handle)),
        }
    }
}
