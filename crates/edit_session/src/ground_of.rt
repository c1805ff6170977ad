ghost use Rattle.std.specs.Prelude.{◌≡◌, ◌≤◌, ◌<◌, ℕ, Option, OnOk, OnErr, IfSome};
ghost use Rattle.std.proofs.Common.{refl};
ghost use Rattle.topology_terms.specs.Feature as terms;
ghost use Rattle.topology_terms.specs.Feature.{feature_at};
ghost use Rattle.feature_store.specs.Stored.{IsSame};
ghost use Rattle.session_terms.specs.KeptChanges.{IsSet};
ghost use Rattle.edit_session.specs.Grounds.{IsMayStand, IsStoreSwap, may_again, may_still, same_live, same_may};

use feature_store::{NoMemory, Store};
use shape::Feature;

/// What an undo changes: one live feature, or its absence, is exchanged for the kept one.
pub trait Ground {
    ghost live: { Self → ℕ → Option terms.Feature };

    ghost may_stand: { Self → ℕ → Option terms.Feature → Type 0 };

    ghost swapped: { ℕ → Option terms.Feature → Option terms.Feature → Self → Self → Type 0 };

    ghost same: { Self → Self → Type 0 };

    /// Exchanges the live feature of this handle, or its absence, with the kept one. The one refusal is out of memory, and then
    /// nothing has changed.
    fn swap(&mut self, handle: u32, kept: &mut Option<Feature>) -> Result<(), NoMemory>
        requires may { may_stand self.old handle kept.old }
        ensures done { OnOk result (swapped handle kept.new kept.old self.old self.new) }
        ensures same { OnErr result (same self.old self.new) }
        ensures kept { OnErr result (kept.new ≡ kept.old) };

    ghost stood: { (h : ℕ) (before after : Option terms.Feature) (s t : Self) → swapped h before after s t → before ≡ live s h };

    ghost sets: { (h : ℕ) (before after : Option terms.Feature) (s t : Self) → swapped h before after s t → IsSet h after (live s) (live t) };

    ghost may_again: { (h : ℕ) (before after : Option terms.Feature) (s t : Self) → may_stand s h after → swapped h before after s t → may_stand t h before };

    ghost may_still: { (h : ℕ) (before after : Option terms.Feature) (s t : Self) (k : ℕ) (x : Option terms.Feature) → swapped h before after s t → may_stand s k x → may_stand t k x };

    ghost same_self: { (s : Self) → same s s };

    ghost same_live: { (s t : Self) (k : ℕ) → same s t → live t k ≡ live s k };

    ghost same_may: { (s t : Self) (k : ℕ) (x : Option terms.Feature) → same s t → may_stand s k x → may_stand t k x };
}

impl Ground for Store {
    ghost live = { λ s. feature_at s.features };

    ghost may_stand = { λ s h x. IsMayStand s.classes s.next h x };

    ghost swapped = { λ h before after s t. IsStoreSwap h before after s t };

    ghost same = { λ s t. IsSame s t };

    fn swap(&mut self, handle: u32, kept: &mut Option<Feature>) -> Result<(), NoMemory> {
        Store::swap(self, handle, kept)
    }

    ghost stood = { λ h before after s t w. w.stood };

    ghost sets = { λ h before after s t w. record { here = w.features.here; others = w.features.others } };

    ghost may_again = { may_again };

    ghost may_still = { may_still };

    ghost same_self = { λ _. record { classes = refl; features = refl; next = refl } };

    ghost same_live = { same_live };

    ghost same_may = { same_may };
}
