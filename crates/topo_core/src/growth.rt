ghost use Rattle.std.specs.Prelude.{◌≡◌, ◌≢◌, ◌↔◌, ◌⊎◌, true, false, Some, Contains, IfSome, OnOk, OnErr};
ghost use Rattle.std.specs.Option.{option_map};
ghost use Rattle.plane_terms.specs.Rectangle.{IsRectangle};
ghost use Rattle.plane_terms.specs.Dirt.{add_dirt};
ghost use Rattle.topology_terms.specs.Feature.{env, feature_at};
ghost use Rattle.topology_terms.specs.Changes as changes;
ghost use Rattle.feature_store.specs.Keeps.{IsStore};
ghost use Rattle.grid_index.specs.declared.placed.Placed as terms;
ghost use Rattle.validation.specs.Placed.{placed_of, ArePlaced};
ghost use Rattle.topo_core.specs.Topologies.{AreLive};

use crate::places::{kept_place, live_place, put_place, take_place};
use dirty_area::Dirt;
use feature_store::Store;
use grid_index::{Index, Placed};
use grid_plane::{NoMemory, Rect};
use shape::{Feature, Shape};
use step_count::Count;

// The envelope of the live feature of this handle.
fn live_env(store: &Store, handle: u32) -> Option<Rect>
    ensures { result ≡ option_map env (feature_at store.now.features handle) }
{
    match store.get(handle) {
        Some(feature) => Some(feature.shape().env()),
        None => None,
    }
}

fn kept_env(kept: &Option<Feature>) -> Option<Rect>
    ensures { result ≡ option_map env kept.now }
{
    match kept {
        Some(feature) => Some(feature.shape().env()),
        None => None,
    }
}

/// Puts the place of what comes into the index, unless it stands there already, and makes the envelope of what stands at the handle dirty, then that of what
/// comes. After an `Err`, out of memory, the dirt is as it was, and an index of the live features and nothing else is one still.
pub fn dirty_both(
    dirt: &mut Dirt,
    index: &mut Index<Count>,
    store: &Store,
    handle: u32,
    kept: &Option<Feature>,
) -> Result<(), NoMemory>
    requires own { IfSome kept.now (λ f. f.handle ≡ handle) }
    requires placed { ArePlaced index.old store.now.features }
    ensures ok { OnOk result (dirt.new ≡ changes.add_envelope (changes.add_envelope dirt.old (feature_at store.now.features handle)) kept.now) }
    ensures put { OnOk result ((q : terms.Placed) → Contains index.new q ↔ (Contains index.old q ⊎ (option_map placed_of kept.now ≡ Some q))) }
    ensures err { OnErr result (dirt.new ≡ dirt.old) }
    ensures placed { OnErr result (ArePlaced index.old store.now.features → ArePlaced index.new store.now.features) }
    ensures live { OnErr result (AreLive index.old store.now.features → AreLive index.new store.now.features) }
{
    let comes = kept_place(kept);
    let stands = live_place(store, handle);
    put_place(index, &comes, &stands)?;
    match dirt.add_two(live_env(store, handle), kept_env(kept)) {
        Ok(()) => Ok(()),
        Err(e) => {
            take_place(index, &comes, &stands);
            Err(e)
        }
    }
}

/// Puts the rectangle into the index under the next handle, and makes it dirty. After an `Err`, out of memory, the dirt is as
/// it was, and an index of the live features and nothing else is one still.
pub fn dirty_next(
    dirt: &mut Dirt,
    index: &mut Index<Count>,
    store: &Store,
    env: Rect,
) -> Result<(), NoMemory>
    ensures ok { OnOk result (dirt.new ≡ add_dirt dirt.old env) }
    ensures put { OnOk result ((q : terms.Placed) → Contains index.new q ↔ (Contains index.old q ⊎ (q ≡ record { rect = env; handle = store.now.next }))) }
    ensures err { OnErr result (dirt.new ≡ dirt.old) }
    ensures placed { OnErr result (ArePlaced index.old store.now.features → ArePlaced index.new store.now.features) }
    ensures live { OnErr result (AreLive index.old store.now.features → AreLive index.new store.now.features) }
{
    let place = Placed {
        rect: env,
        handle: store.next_handle(),
    };
    index.put(place)?;
    match dirt.add(env) {
        Ok(()) => Ok(()),
        Err(e) => {
            store_law(store);
            index.take(&place);
            Err(e)
        }
    }
}

/// The law of what a store keeps.
pub fn store_law(store: &Store)
    ensures { IsStore store.now.classes store.now.features store.now.next }
{
    store.features();
}

/// Whether the shape is of another kind than the feature's.
pub fn has_other_kind(shape: &Shape, feature: &Feature) -> bool
    ensures other { result ≡ true → shape.now.kind ≢ feature.now.shape.kind }
    ensures same { result ≡ false → shape.now.kind ≡ feature.now.shape.kind }
{
    shape.kind() != feature.shape().kind()
}

/// The law that the envelope of a feature is a rectangle of the grid.
pub fn envelope_law(kept: &Option<Feature>)
    ensures { IfSome kept.now (λ f. IsRectangle (env f)) }
{
    if let Some(feature) = kept {
        feature.shape().env().corner_law();
    }
}
