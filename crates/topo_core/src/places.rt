ghost use Rattle.std.specs.Prelude.{◌≡◌, ◌↔◌, ◌⊎◌, Some, Contains, IsTrue, OnOk, OnErr};
ghost use Rattle.std.specs.Option.{option_map};
ghost use Rattle.topology_terms.specs.Feature.{feature_at};
ghost use Rattle.grid_index.specs.declared.placed.Placed as terms;
ghost use Rattle.validation.specs.Placed.{placed_of};

use feature_store::Store;
use grid_index::{Index, Placed};
use grid_plane::NoMemory;
use shape::Feature;
use step_count::Count;

/// Where a feature lies, and its handle.
pub fn place_of(feature: &Feature) -> Placed
    ensures { result ≡ placed_of feature.now }
{
    Placed {
        rect: feature.shape().env(),
        handle: feature.handle(),
    }
}

/// Where the live feature of this handle lies, and the handle.
pub fn live_place(store: &Store, handle: u32) -> Option<Placed>
    ensures { result ≡ option_map placed_of (feature_at store.now.features handle) }
{
    match store.get(handle) {
        Some(feature) => Some(place_of(feature)),
        None => None,
    }
}

/// Where the kept feature lies, and its handle.
pub fn kept_place(kept: &Option<Feature>) -> Option<Placed>
    ensures { result ≡ option_map placed_of kept.now }
{
    match kept {
        Some(feature) => Some(place_of(feature)),
        None => None,
    }
}

// Whether the two are one pair.
fn is_same(a: &Placed, b: &Placed) -> bool
    ensures { IsTrue result ↔ (a.now ≡ b.now) }
{
    a.handle == b.handle && a.rect.holds_rect(&b.rect) && b.rect.holds_rect(&a.rect)
}

// Whether the pair is there, and this one.
fn is_this(some: &Option<Placed>, p: &Placed) -> bool
    ensures { IsTrue result ↔ (some.now ≡ Some p.now) }
{
    match some {
        Some(q) => is_same(q, p),
        None => false,
    }
}

/// Puts the pair into the index, where it is there, unless it is the one that stands there already; after an `Err`, out of memory, the
/// same pairs stand in it.
pub fn put_place(
    index: &mut Index<Count>,
    comes: &Option<Placed>,
    stands: &Option<Placed>,
) -> Result<(), NoMemory>
    requires { (q : terms.Placed) → stands.now ≡ Some q → Contains index.old q }
    ensures ok { OnOk result ((q : terms.Placed) → Contains index.new q ↔ (Contains index.old q ⊎ (comes.now ≡ Some q))) }
    ensures err { OnErr result ((q : terms.Placed) → Contains index.new q ↔ Contains index.old q) }
{
    let Some(p) = comes else {
        return Ok(());
    };
    if is_this(stands, p) {
        return Ok(());
    }
    index.put(*p)
}

/// Takes the pair that is gone out of the index, where it is there, unless it is the one that stays.
pub fn take_place(index: &mut Index<Count>, gone: &Option<Placed>, stays: &Option<Placed>)
    ensures { (q : terms.Placed) → Contains index.new q ↔ (Contains index.old q × (gone.now ≡ Some q → stays.now ≡ Some q)) }
{
    if let Some(p) = gone {
        if !is_this(stays, p) {
            index.take(p);
        }
    }
}
