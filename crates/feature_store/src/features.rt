ghost use Rattle.std.specs.Prelude.{◌≡◌, ◌-◌, [], length, slice_get, None, Some, MatchOption};
ghost use Rattle.topology_terms.specs.Feature.{feature_at};
ghost use Rattle.feature_store.specs.Slots.{filled};
ghost use Rattle.feature_store.specs.Places.{AreSlots};

use crate::slot::Slot;
use crate::slots::{feature_of, last_of};
use shape::Feature;
use std::marker::Model;

/// The live features of a store, in the order of their handles: what its slots are filled with.
#[derive(Drop)]
pub struct Features<'a> {
    slots: &'a [Slot],
}

impl<'a> Model for Features<'a> {
    ghost use Rattle.std.specs.Prelude.{List};
    ghost use Rattle.topology_terms.specs.Feature.{Feature};
    ghost use Rattle.feature_store.specs.Slots.{filled};
    ghost use Rattle.feature_store.specs.Places.{AreSlots};

    ghost Value = { List Feature };

    ghost view = { λ x. filled x.slots.now };

    ghost invariant = { λ x. AreSlots x.slots.now };
}

impl<'a> Features<'a> {
    // What these slots are filled with.
    pub(crate) fn of(slots: &'a [Slot]) -> Features<'a>
        requires { AreSlots slots.now }
        ensures { result ≡ filled slots.now }
    {
        Features { slots }
    }

    /// The feature of this handle. Takes steps for the logarithm of the number of slots.
    pub fn get(&self, handle: u32) -> Option<&'a Feature>
        ensures { MatchOption result (feature_at self.now handle ≡ None) (λ f. feature_at self.now handle ≡ Some f.now) }
    {
        feature_of(self.slots, handle)
    }

    /// The feature of the highest handle. Takes a step for each empty slot behind it.
    pub fn last(&self) -> Option<&'a Feature>
        ensures { MatchOption result (self.now ≡ []) (λ f. slice_get self.now (length self.now - 1) ≡ Some f.now) }
    {
        last_of(self.slots)
    }

    /// The slots: those that are filled hold the features, in their order.
    pub fn slots(&self) -> &'a [Slot]
        ensures { filled result.now ≡ self.now }
    {
        self.slots
    }
}
