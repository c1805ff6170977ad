ghost use Rattle.std.specs.Prelude.{◌≡◌, ◌<◌, ◌≤◌, ◌+◌, ℕ, [], ◌∷◌, ◌++◌, true, false, length, nat_le, not, filter, IfOk, OnOk, OnErr};
ghost use Rattle.std.specs.List.{list_any};
ghost use Rattle.plane_terms.specs.Rectangle.{is_within, rects_meet};
ghost use Rattle.grid_index.specs.Relations.{stands};
ghost use Rattle.dirty_area.specs.Blocks.{HasRoom};

use grid_index::Relation;
use grid_plane::{NoMemory, Rect};
use std::alloc::Global;
use std::marker::Model;

/// A block of so many rectangles or more gets none more at its end.
const FULL: usize = 16;

/// No block has more rectangles.
const MOST: usize = 4294967295;

/// Rectangles that stand side by side in a list of dirt.
#[derive(Drop)]
pub struct Block {
    rects: Vec<Rect>,
}

impl Model for Block {
    ghost use Rattle.std.specs.Prelude.{◌≤◌, ◌-◌, length, vec_len, vec_capacity};
    ghost use Rattle.dirty_area.specs.Blocks as terms;

    ghost Value = { terms.Block };

    ghost view = { λ b. record { items = b.rects.items; room = vec_capacity b.rects - vec_len b.rects } };

    ghost invariant = { λ b. length b.rects.items ≤ 4294967295 };
}

/// Whether the first does not hold the second.
pub(crate) fn is_loose(r: &Rect, s: &Rect) -> bool
    ensures { result ≡ not (is_within s.now r.now) }
{
    !r.holds_rect(s)
}

impl Block {
    /// It has no rectangle, and room for those that make it full.
    pub(crate) fn new(alloc: Global) -> Result<Block, NoMemory>
        ensures { IfOk result (λ b. b.items ≡ []) }
    {
        Ok(Block {
            rects: Vec::with_capacity(alloc, FULL)?,
        })
    }

    /// These rectangles, where they are not too many.
    pub(crate) fn of(rects: Vec<Rect>) -> Result<Block, NoMemory>
        ensures { IfOk result (λ b. b.items ≡ rects.items) }
    {
        if rects.len() > MOST {
            return Err(NoMemory);
        }
        Ok(Block { rects })
    }

    /// How many rectangles there are.
    pub(crate) fn len(&self) -> usize
        ensures value { result ≡ length self.now.items }
        ensures most { result ≤ 4294967295 }
    {
        self.rects.len()
    }

    /// Whether it gets none more at its end.
    pub(crate) fn is_full(&self) -> bool
        ensures { result ≡ nat_le 16 (length self.now.items) }
    {
        self.rects.len() >= FULL
    }

    /// The rectangles in their order.
    pub fn rects(&self) -> &[Rect]
        ensures { result.now ≡ self.now.items }
    {
        &self.rects
    }

    /// Makes room for so many rectangles more.
    pub(crate) fn reserve(&mut self, more: usize) -> Result<(), NoMemory>
        requires { more ≤ 4294967295 }
        ensures same { self.new.items ≡ self.old.items }
        ensures room { OnOk result (HasRoom self.new more) }
    {
        if self.rects.len() > MOST - more {
            return Err(NoMemory);
        }
        self.rects.reserve(more)?;
        Ok(())
    }

    /// Puts the rectangle last. There is room.
    pub(crate) fn put(&mut self, r: Rect)
        requires { HasRoom self.old 1 }
        ensures put { self.new.items ≡ self.old.items ++ r ∷ [] }
        ensures room { (n : ℕ) → HasRoom self.old (n + 1) → HasRoom self.new n }
    {
        self.rects.push_reserved(r);
    }

    /// Takes out the rectangles that this one holds.
    pub(crate) fn drop_held(&mut self, r: &Rect)
        ensures held { self.new.items ≡ filter (λ s. not (is_within s r.now)) self.old.items }
        ensures room { (n : ℕ) → HasRoom self.old n → HasRoom self.new n }
    {
        self.rects.retain(|s| is_loose(r, s));
    }

    /// Whether a rectangle stands so to this one.
    pub(crate) fn has(&self, r: &Rect, relation: Relation) -> bool
        ensures { result ≡ list_any (λ s. stands relation s r.now) self.now.items }
    {
        self.rects.iter().any(|s| relation.is_between(s, r))
    }

    /// An equal block.
    pub(crate) fn try_copy(&self, alloc: Global) -> Result<Block, NoMemory>
        ensures { IfOk result (λ b. b.items ≡ self.now.items) }
    {
        Ok(Block {
            rects: Vec::from_slice(alloc, &self.rects)?,
        })
    }
}
