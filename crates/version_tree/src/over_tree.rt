ghost use Rattle.std.specs.Prelude.{◌≡◌};
ghost use Rattle.std.proofs.Common.{refl};
ghost use Rattle.topology_terms.specs.Feature.{feature_at};
ghost use Rattle.edit_session.specs.Grounds.{IsMayStand};
ghost use Rattle.version_tree.specs.OverTrees.{IsTreeSwap, may_again, may_still, same_live, same_may};

use crate::tree::Tree;
use edit_session::Ground;
use grid_plane::NoMemory;
use shape::Feature;
use topo_core::KindRules;

impl<R: KindRules> Ground for Tree<R> {
    ghost live = { λ t. feature_at t.current.project.features };

    ghost may_stand = { λ t h x. IsMayStand t.current.project.classes t.current.project.next h x };

    ghost swapped = { λ h before after t u. IsTreeSwap R.meaning h before after t u };

    ghost same = { λ t u. u ≡ t };

    fn swap(&mut self, handle: u32, kept: &mut Option<Feature>) -> Result<(), NoMemory> {
        Tree::swap(self, handle, kept)
    }

    ghost stood = { λ h before after s t w. w.swap.stood };

    ghost sets = { λ h before after s t w. record { here = w.swap.set.edit.features.here; others = w.swap.set.edit.features.others } };

    ghost may_again = { may_again R.meaning };

    ghost may_still = { may_still R.meaning };

    ghost same_self = { λ _. refl };

    ghost same_live = { same_live };

    ghost same_may = { same_may };
}
