ghost use Rattle.std.specs.Prelude.{◌≡◌, ◌<◌, ◌≤◌, ◌+◌, [], ◌∷◌, ◌++◌, false, length, not, filter, OnOk};
ghost use Rattle.plane_terms.specs.Lists.{Every};
ghost use Rattle.plane_terms.specs.Rectangle.{Rectangle, is_within};
ghost use Rattle.dirty_area.specs.declared.left.Change as changes;
ghost use Rattle.dirty_area.specs.Blocks.{runs, joined, all_rects};
ghost use Rattle.dirty_area.specs.Cuts.{AreTrimmed, between, front, patched};
ghost use Rattle.dirty_area.specs.Parts.{IsDirt};

use crate::block::{Block, is_loose};
use grid_plane::{NoMemory, Rect};
use std::alloc::Global;
use std::marker::Model;
use std::mem;

/// A list of so few rectangles grows as it comes.
const FEW: usize = 4;

/// What comes in place of a block.
#[derive(Drop)]
pub(crate) struct Change {
    // The place of the block that goes.
    pub(crate) place: usize,
    // The block that comes there.
    pub(crate) block: Block,
}

/// What is left of the first blocks of a list of dirt, while a window is cut out of it.
#[derive(Drop)]
pub(crate) struct Left<'a> {
    alloc: Global,
    blocks: &'a [Block],
    // So many blocks are done.
    next: usize,
    // What comes in place of some of those, in their order.
    changes: Vec<Change>,
    // What is left of the next block so far.
    begun: Vec<Rect>,
}

impl<'a> Model for Left<'a> {
    ghost use Rattle.std.specs.Prelude.{◌<◌, ◌≤◌, ◌++◌, take, length};
    ghost use Rattle.plane_terms.specs.Lists.{Every};
    ghost use Rattle.dirty_area.specs.declared.left.Change.{Change};
    ghost use Rattle.dirty_area.specs.Blocks.{runs, joined, all_rects};
    ghost use Rattle.dirty_area.specs.Cuts as terms;
    ghost use Rattle.dirty_area.specs.Cuts.{patched};
    ghost use Rattle.dirty_area.specs.Parts.{IsDirt};

    ghost Value = { terms.Left };

    ghost view = { λ l. record { runs = runs l.blocks.now; next = l.next; left = joined (take l.next (patched (runs l.blocks.now) l.changes.items)) ++ l.begun.items; begun = l.begun.items } };

    ghost invariant = { λ l. IsDirt (all_rects l.blocks.now) × (l.next ≤ length l.blocks.now) × Every (λ (c : Change). c.place < l.next) l.changes.items };
}

// Puts the rectangle last, the first of so many that may come. A full list gets room for all of those at once, unless to double
// its room gives more.
fn push_one(rects: &mut Vec<Rect>, r: Rect, coming: usize) -> Result<(), NoMemory>
    ensures { OnOk result (rects.new.items ≡ rects.old.items ++ r ∷ []) }
{
    if rects.len() < rects.capacity() {
        rects.push_reserved(r);
        return Ok(());
    }
    if coming > FEW && coming > rects.len() {
        rects.reserve_exact(coming)?;
    }
    rects.push(r)?;
    Ok(())
}

// Takes the rectangles that this one holds out of each block that comes.
fn drop_held_of_each(changes: &mut Vec<Change>, r: &Rect)
    ensures { AreTrimmed r.now changes.old.items changes.new.items }
{
    for i in 0..changes.len() {
        changes[i].block.drop_held(r);
    }
}

impl<'a> Left<'a> {
    /// No block is done.
    pub(crate) fn new(alloc: Global, blocks: &'a [Block]) -> Left<'a>
        requires { IsDirt (all_rects blocks.now) }
        ensures runs { result.runs ≡ runs blocks.now }
        ensures next { result.next ≡ 0 }
        ensures left { result.left ≡ [] }
        ensures begun { result.begun ≡ [] }
    {
        Left {
            alloc,
            blocks,
            next: 0,
            changes: Vec::new(alloc),
            begun: Vec::new(alloc),
        }
    }

    /// Makes room for changes of so many blocks.
    pub(crate) fn make_room(&mut self, changes: usize) -> Result<(), NoMemory>
        ensures { self.new ≡ self.old }
    {
        self.changes.reserve_exact(changes)?;
        Ok(())
    }

    /// The blocks before this place stay as they are.
    pub(crate) fn go_to(&mut self, place: usize)
        requires begun { self.old.begun ≡ [] }
        requires next { self.old.next ≤ place }
        requires place { place ≤ length self.old.runs }
        ensures runs { self.new.runs ≡ self.old.runs }
        ensures next { self.new.next ≡ place }
        ensures left { self.new.left ≡ self.old.left ++ between self.old.runs self.old.next place }
        ensures begun { self.new.begun ≡ [] }
    {
        self.next = place;
    }

    /// Puts the rectangle last, the first of so many that may come to the block.
    pub(crate) fn push(&mut self, r: Rect, coming: usize) -> Result<(), NoMemory>
        ensures runs { self.new.runs ≡ self.old.runs }
        ensures next { self.new.next ≡ self.old.next }
        ensures left { OnOk result (self.new.left ≡ self.old.left ++ r ∷ []) }
    {
        push_one(&mut self.begun, r, coming)
    }

    /// Takes out the rectangles that this one holds.
    pub(crate) fn drop_held(&mut self, r: &Rect)
        requires { Every (λ s. is_within s r.now ≡ false) (front self.old) }
        ensures runs { self.new.runs ≡ self.old.runs }
        ensures next { self.new.next ≡ self.old.next }
        ensures left { self.new.left ≡ filter (λ s. not (is_within s r.now)) self.old.left }
    {
        drop_held_of_each(&mut self.changes, r);
        self.begun.retain(|s| is_loose(r, s));
    }

    /// Nothing more is left of the block.
    pub(crate) fn close(&mut self) -> Result<(), NoMemory>
        requires { self.old.next < length self.old.runs }
        ensures runs { self.new.runs ≡ self.old.runs }
        ensures next { OnOk result (self.new.next ≡ self.old.next + 1) }
        ensures left { OnOk result (self.new.left ≡ self.old.left) }
        ensures begun { OnOk result (self.new.begun ≡ []) }
    {
        let begun = mem::replace(&mut self.begun, Vec::new(self.alloc));
        let block = Block::of(begun)?;
        let change = Change {
            place: self.next,
            block,
        };
        self.changes.push(change)?;
        self.next += 1;
        Ok(())
    }

    /// What comes in place of blocks, once all are done.
    pub(crate) fn into_changes(self) -> Vec<Change>
        requires begun { self.begun ≡ [] }
        requires next { self.next ≡ length self.runs }
        ensures left { joined (patched self.entry.runs result.items) ≡ self.entry.left }
        ensures places { Every (λ (c : changes.Change). c.place < length self.entry.runs) result.items }
    {
        self.changes
    }
}
