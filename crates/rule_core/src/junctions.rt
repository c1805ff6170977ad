ghost use Rattle.std.specs.Prelude.{◌≡◌, [], ◌++◌, IfOk, OnOk, OnErr};
ghost use Rattle.std.specs.Global.{Vec};
ghost use Rattle.plane_terms.specs.Point.{Place};
ghost use Rattle.rule_core.specs.Junctions.{after_ask, after_put, handles_at};

use crate::limits::most_places;
use grid_plane::{GridPoint, NoMemory};
use lru::LruCache;
use std::alloc::Global;
use std::marker::Model;

// A place of the grid as a key.
#[derive(Clone, Copy, PartialEq, Eq, Hash)]
struct PlaceKey {
    x: i32,
    y: i32,
}

impl Model for PlaceKey {
    ghost use Rattle.plane_terms.specs.Point.{Place};

    ghost Value = { Place };

    ghost view = { λ k. record { x = k.x; y = k.y } };

    ghost inverse = { λ p. record { x = p.x; y = p.y } };
}

fn key_of(place: GridPoint) -> PlaceKey
    ensures { result ≡ place }
{
    PlaceKey {
        x: place.x(),
        y: place.y(),
    }
}

/// Handles of a few features each at a place where many meet. What was least recently used goes first where there is too much. No
/// clause says whether they still are there: whoever uses them looks.
#[derive(Drop)]
pub(crate) struct Junctions {
    cache: LruCache<PlaceKey, Vec<u32>>,
}

impl Model for Junctions {
    ghost use Rattle.std.specs.Prelude.{◌≡◌, ℕ, List};
    ghost use Rattle.std.specs.Global.{Vec};
    ghost use Rattle.plane_terms.specs.Point.{Place};
    ghost use Rattle.rule_core.specs.Junctions.{most_places};

    ghost Value = { List (Place × Vec ℕ) };

    ghost view = { λ j. j.cache.entries };

    ghost invariant = { λ j. j.cache.cap ≡ most_places };
}

impl Junctions {
    /// Nothing is kept yet.
    pub(crate) fn new(alloc: Global) -> Result<Junctions, NoMemory>
        ensures { IfOk result (λ j. j ≡ []) }
    {
        Ok(Junctions {
            cache: LruCache::sparse(alloc, most_places())?,
        })
    }

    /// Puts the handles last that are kept for the place, which then are the most recently used.
    pub(crate) fn push_kept(
        &mut self,
        place: GridPoint,
        handles: &mut Vec<u32>,
    ) -> Result<(), NoMemory>
        ensures last { OnOk result (handles.new.items ≡ handles.old.items ++ handles_at self.old place) }
        ensures after { OnOk result (self.new ≡ after_ask self.old place) }
        ensures err { OnErr result ((self.new ≡ self.old) × (handles.new.items ≡ handles.old.items)) }
    {
        let key = key_of(place);
        if let Some(kept) = self.cache.peek(&key) {
            handles.extend_from_slice(kept)?;
        }
        self.cache.promote(&key);
        Ok(())
    }

    /// Keeps these handles for the place, in place of others.
    pub(crate) fn keep(&mut self, place: GridPoint, handles: Vec<u32>) -> Result<(), NoMemory>
        ensures kept { OnOk result (self.new ≡ after_put self.old place handles) }
        ensures err { OnErr result (self.new ≡ self.old) }
    {
        self.cache.put(key_of(place), handles)?;
        Ok(())
    }
}
