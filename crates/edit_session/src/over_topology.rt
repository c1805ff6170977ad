ghost use Rattle.std.specs.Prelude.{◌≡◌};
ghost use Rattle.std.proofs.Common.{refl};
ghost use Rattle.topology_terms.specs.Feature.{feature_at};
ghost use Rattle.edit_session.specs.Grounds.{IsMayStand};
ghost use Rattle.edit_session.specs.OverTopologies.{IsGroundSwap, may_again, may_still, same_live, same_may};

use crate::ground_of::Ground;
use grid_plane::NoMemory;
use shape::Feature;
use topo_core::{KindRules, Topology};

impl<R: KindRules> Ground for Topology<R> {
    ghost live = { λ p. feature_at p.features };

    ghost may_stand = { λ p h x. IsMayStand p.classes p.next h x };

    ghost swapped = { λ h before after p q. IsGroundSwap R.meaning h before after p q };

    ghost same = { λ p q. q ≡ p };

    fn swap(&mut self, handle: u32, kept: &mut Option<Feature>) -> Result<(), NoMemory> {
        Topology::swap(self, handle, kept)
    }

    ghost stood = { λ h before after s t w. w.stood };

    ghost sets = { λ h before after s t w. record { here = w.set.edit.features.here; others = w.set.edit.features.others } };

    ghost may_again = { may_again R.meaning };

    ghost may_still = { may_still R.meaning };

    ghost same_self = { λ _. refl };

    ghost same_live = { same_live };

    ghost same_may = { same_may };
}
