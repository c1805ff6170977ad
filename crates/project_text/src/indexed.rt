ghost use Rattle.std.specs.Prelude.{◌≡◌, false, [], ◌∷◌, ◌++◌, OnOk, OnErr};
ghost use Rattle.std.specs.List.{list_any};
ghost use Rattle.project_terms.specs.Verdicts.{are_nested};

use dirty_area::Dirt;
use grid_plane::{NoMemory, Rect};
use std::alloc::Global;
use std::marker::Model;

/// Dirty areas, of which none lies in another, with an index from the start.
#[derive(Drop)]
pub struct IndexedDirt {
    dirt: Dirt,
}

impl Model for IndexedDirt {
    ghost use Rattle.std.specs.Prelude.{List};
    ghost use Rattle.plane_terms.specs.Rectangle.{Rectangle};

    ghost Value = { List Rectangle };

    ghost view = { λ d. d.dirt };
}

impl IndexedDirt {
    /// Nothing is dirty.
    pub fn new(alloc: Global) -> IndexedDirt
        ensures { result ≡ [] }
    {
        IndexedDirt {
            dirt: Dirt::indexed(alloc),
        }
    }

    /// Whether the rectangle lies in a dirty one, or a dirty one in it.
    pub fn is_nested(&self, r: &Rect) -> bool
        ensures { result ≡ list_any (are_nested r.now) self.now }
    {
        self.dirt.is_nested(r)
    }

    /// Makes the rectangle dirty, last. After an `Err`, out of memory, the same is dirty as before.
    pub fn add(&mut self, r: Rect) -> Result<(), NoMemory>
        requires { list_any (are_nested r) self.old ≡ false }
        ensures ok { OnOk result (self.new ≡ self.old ++ r ∷ []) }
        ensures err { OnErr result (self.new ≡ self.old) }
    {
        self.dirt.add_loose(r)
    }

    /// The dirty areas alone.
    pub fn into_dirt(self) -> Dirt
        ensures { result ≡ self }
    {
        self.dirt
    }
}
