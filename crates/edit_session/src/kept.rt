ghost use Rattle.std.specs.Prelude.{◌≡◌, ◌≤◌, ◌+◌, ℕ, None, OnOk, nat_eq, cond};
ghost use Rattle.std.specs.HashMap.{get, spare};

use grid_plane::NoMemory;
use shape::Feature;
use std::collections::HashMap;

/// The feature that a step keeps, by the index of the step; of a step that keeps none there is nothing.
pub(crate) type Kept = HashMap<usize, Feature>;

/// Makes room for so many more.
pub(crate) fn make_room(kept: &mut Kept, more: usize) -> Result<(), NoMemory>
    ensures room { OnOk result (more ≤ spare kept.new) }
    ensures grows { spare kept.old ≤ spare kept.new }
    ensures same { (i : ℕ) → get nat_eq kept.new i ≡ get nat_eq kept.old i }
{
    kept.reserve(more)?;
    Ok(())
}

/// The step at this index keeps this feature, or none. Takes no memory: there is room.
pub(crate) fn put(kept: &mut Kept, index: usize, feature: Option<Feature>)
    requires room { 1 ≤ spare kept.old }
    requires none { get nat_eq kept.old index ≡ None }
    ensures put { (i : ℕ) → get nat_eq kept.new i ≡ cond (nat_eq index i) feature (get nat_eq kept.old i) }
    ensures room { spare kept.old ≤ spare kept.new + 1 }
{
    if let Some(feature) = feature {
        let put: Result<_, _> = kept.insert(index, feature);
        put.unwrap();
    }
}

/// Takes out what the step at this index keeps.
pub(crate) fn take(kept: &mut Kept, index: usize) -> Option<Feature>
    ensures value { result ≡ get nat_eq kept.old index }
    ensures taken { (i : ℕ) → get nat_eq kept.new i ≡ cond (nat_eq index i) None (get nat_eq kept.old i) }
    ensures room { spare kept.old ≤ spare kept.new }
{
    kept.remove(&index)
}
