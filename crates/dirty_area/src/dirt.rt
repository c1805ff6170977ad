ghost use Rattle.std.specs.Prelude.{◌≡◌, ◌↔◌, ◌≤◌, ◌||◌, [], ◌∷◌, ◌++◌, length, IsTrue, IfSome, IfOk, OnOk, OnErr};
ghost use Rattle.std.specs.List.{list_any};
ghost use Rattle.std.specs.Option.{option_to_list};
ghost use Rattle.plane_terms.specs.Point.{Point};
ghost use Rattle.plane_terms.specs.Rectangle.{RectHolds, IsRectangle, is_within, rects_meet};
ghost use Rattle.plane_terms.specs.Dirt.{MeetsPart, Covers, MeetsDirt, add_dirt, add_all, cut_dirt};
ghost use Rattle.grid_index.specs.Relations.{stands};
ghost use Rattle.dirty_area.specs.Blocks.{IsNumber, runs, all_rects};
ghost use Rattle.dirty_area.specs.Cuts.{IsCut};
ghost use Rattle.dirty_area.specs.Indexed.{IsIndexed};
ghost use Rattle.dirty_area.specs.Parts.{IsDirt, AreNear};

use crate::block::Block;
use crate::cut::{Cut, taken_of};
use crate::finder::Finder;
use crate::list::{add_in, add_some, copy_of, count, list_of, make_room, put_last};
use grid_index::Relation;
use grid_plane::{NoMemory, Rect};
use std::alloc::Global;
use std::marker::Model;
use std::mem;

/// Dirty areas: closed rectangles in grid units, in the order in which they became dirty, of which none lies in another.
/// Dirty areas in the white paper Working With Geodatabase Topology (Esri); the list is this project's own.
#[derive(Drop)]
pub struct Dirt {
    alloc: Global,
    blocks: Vec<Block>,
    finder: Finder,
    // How many rectangles there are; none where that is too large for a number.
    number: Option<usize>,
}

impl Model for Dirt {
    ghost use Rattle.std.specs.Prelude.{◌≤◌, List, length, IfSome};
    ghost use Rattle.plane_terms.specs.Rectangle.{Rectangle};
    ghost use Rattle.dirty_area.specs.Blocks.{IsNumber, runs, all_rects};
    ghost use Rattle.dirty_area.specs.Parts.{IsDirt};
    ghost use Rattle.dirty_area.specs.Indexed.{IsIndexed};

    ghost Value = { List Rectangle };

    ghost view = { λ d. all_rects d.blocks.items };

    ghost invariant = { λ d. IsDirt (all_rects d.blocks.items) × (length d.blocks.items ≤ 4294967295) × IfSome d.finder (λ ps. IsIndexed (runs d.blocks.items) ps) × IsNumber d.blocks.items d.number };
}

// The law that a rectangle is one of the grid.
fn corner_laws(r: &Option<Rect>)
    ensures { IfSome r.now IsRectangle }
{
    if let Some(r) = r {
        r.corner_law();
    }
}

impl Dirt {
    /// Nothing is dirty.
    pub fn new(alloc: Global) -> Dirt
        ensures { result ≡ [] }
    {
        Dirt {
            alloc,
            blocks: Vec::new(alloc),
            finder: Finder::new(alloc),
            number: Some(0),
        }
    }

    /// Nothing is dirty, and an index goes along from the start, as pays where many rectangles are to come.
    pub fn indexed(alloc: Global) -> Dirt
        ensures { result ≡ [] }
    {
        Dirt {
            alloc,
            blocks: Vec::new(alloc),
            finder: Finder::indexed(alloc),
            number: Some(0),
        }
    }

    /// How many rectangles there are.
    pub fn len(&self) -> usize
        ensures { result ≡ length self.now }
    {
        match self.number {
            Some(n) => n,
            None => count(&self.blocks),
        }
    }

    /// The blocks of the list, whose rectangles are the list, one block after another.
    pub fn blocks(&self) -> &[Block]
        ensures { all_rects result.now ≡ self.now }
    {
        &self.blocks
    }

    /// The rectangles in their order: a copy.
    pub fn list(&self, alloc: Global) -> Result<Vec<Rect>, NoMemory>
        ensures { IfOk result (λ v. v.items ≡ self.now) }
    {
        list_of(alloc, &self.blocks, self.len())
    }

    /// The law that the rectangles are of the grid, and that none lies in another.
    pub fn loose_law(&self)
        ensures { IsDirt self.now }
    {
        let _ = &self.finder;
    }

    /// Whether some point of the rectangle is dirty; touching is meeting.
    pub fn meets(&self, r: &Rect) -> bool
        ensures value { result ≡ list_any (λ s. rects_meet s r.now) self.now }
        ensures meaning { IsTrue result ↔ MeetsDirt self.now r.now }
    {
        r.corner_law();
        self.finder.has(&self.blocks, r, Relation::Meets)
    }

    /// The rectangles of the list that meet this one, in any order; touching is meeting.
    pub fn near(&self, alloc: Global, r: &Rect) -> Result<Vec<Rect>, NoMemory>
        ensures { IfOk result (λ ms. AreNear self.now r.now ms.items) }
    {
        self.finder.near(alloc, &self.blocks, r)
    }

    /// Whether some dirty rectangle, the window and this rectangle have a common point.
    pub fn meets_part(&self, window: &Rect, r: &Rect) -> bool
        ensures { IsTrue result ↔ MeetsPart self.now window.now r.now }
    {
        match window.part(r) {
            Some(part) => self.meets(&part),
            None => false,
        }
    }

    /// Whether a rectangle of the list holds this one, or lies in it.
    pub fn is_nested(&self, r: &Rect) -> bool
        ensures { result ≡ list_any (λ s. is_within r.now s || is_within s r.now) self.now }
    {
        r.corner_law();
        self.finder.has(&self.blocks, r, Relation::IsNested)
    }

    /// Whether a rectangle of the list holds this one.
    pub fn holds(&self, r: &Rect) -> bool
        ensures { result ≡ list_any (λ s. is_within r.now s) self.now }
    {
        r.corner_law();
        self.finder.has(&self.blocks, r, Relation::Holds)
    }

    /// Whether a rectangle of the list stands so to this one. Counts as a look through the list.
    pub(crate) fn look(&mut self, r: &Rect, relation: Relation) -> bool
        ensures value { result ≡ list_any (λ s. stands relation s r.now) self.old }
        ensures same { self.new ≡ self.old }
    {
        r.corner_law();
        self.finder.count_look(&self.blocks);
        self.finder.has(&self.blocks, r, relation)
    }

    /// Makes the rectangle dirty: nothing changes where one of the list holds it already; else those that it holds are
    /// taken out, and it is put last. After an `Err`, out of memory, nothing has changed. Once many have been added to a long list,
    /// an index tells which rectangles are near it.
    pub fn add(&mut self, r: Rect) -> Result<(), NoMemory>
        ensures ok { OnOk result (self.new ≡ add_dirt self.old r) }
        ensures err { OnErr result (self.new ≡ self.old) }
    {
        r.corner_law();
        make_room(self.alloc, &mut self.blocks, 1)?;
        add_in(&mut self.blocks, &mut self.finder, &mut self.number, r);
        Ok(())
    }

    /// Makes a rectangle dirty that no rectangle of the list holds and that holds none, so that `add` would put it behind them
    /// all: it is put there. After an `Err`, out of memory, nothing has changed. Compares it with nothing.
    pub fn add_loose(&mut self, r: Rect) -> Result<(), NoMemory>
        requires { add_dirt self.old r ≡ self.old ++ r ∷ [] }
        ensures ok { OnOk result (self.new ≡ self.old ++ r ∷ []) }
        ensures err { OnErr result (self.new ≡ self.old) }
    {
        r.corner_law();
        make_room(self.alloc, &mut self.blocks, 1)?;
        put_last(&mut self.blocks, &mut self.finder, &mut self.number, r);
        Ok(())
    }

    /// Makes the first rectangle dirty, then the second, each where it is there, as `add` does. After an `Err`, out of memory,
    /// nothing has changed.
    pub fn add_two(&mut self, first: Option<Rect>, second: Option<Rect>) -> Result<(), NoMemory>
        ensures ok { OnOk result (self.new ≡ add_all (add_all self.old (option_to_list first)) (option_to_list second)) }
        ensures err { OnErr result (self.new ≡ self.old) }
    {
        corner_laws(&first);
        corner_laws(&second);
        make_room(self.alloc, &mut self.blocks, 2)?;
        add_some(&mut self.blocks, &mut self.finder, &mut self.number, first);
        add_some(&mut self.blocks, &mut self.finder, &mut self.number, second);
        Ok(())
    }

    /// Cuts the window out: of each rectangle, in order, the pieces that lie outside the window are added to what is left so
    /// far. They are closed, so the window's border stays dirty where the dirt goes on beyond it. The cut takes the dirt
    /// over, with what is left of it; nothing is dirty here then. After an `Err`, out of memory, nothing has changed.
    pub fn cut(&mut self, alloc: Global, window: &Rect) -> Result<Cut, NoMemory>
        ensures taken { OnOk result (self.new ≡ []) }
        ensures err { OnErr result (self.new ≡ self.old) }
        ensures whole { IfOk result (λ c. c.whole ≡ self.old) }
        ensures ok { IfOk result (λ c. c.left ≡ cut_dirt self.old window.now) }
        ensures stays { IfOk result (λ c. (p : Point) → Covers self.old p → ¬ (RectHolds window.now p) → Covers c.left p) }
        ensures only { IfOk result (λ c. (p : Point) → Covers c.left p → Covers self.old p) }
        ensures parts { IfOk result (IsCut self.old window.now) }
    {
        window.corner_law();
        self.finder.count_look(&self.blocks);
        let places = self.finder.places(alloc, &self.blocks, window)?;
        let taken = taken_of(alloc, &self.blocks, &places, window)?;
        Ok(Cut {
            alloc,
            blocks: mem::replace(&mut self.blocks, Vec::new(alloc)),
            finder: mem::replace(&mut self.finder, Finder::new(alloc)),
            number: mem::replace(&mut self.number, Some(0)),
            changes: taken.changes,
            met: taken.met,
        })
    }

    /// Dirt of these blocks, which have this number of rectangles.
    pub(crate) fn of(
        alloc: Global,
        blocks: Vec<Block>,
        finder: Finder,
        number: Option<usize>,
    ) -> Dirt
        requires dirt { IsDirt (all_rects blocks.items) }
        requires few { length blocks.items ≤ 4294967295 }
        requires indexed { IfSome finder (λ ps. IsIndexed (runs blocks.items) ps) }
        requires number { IsNumber blocks.items number }
        ensures { result ≡ all_rects blocks.items }
    {
        Dirt {
            alloc,
            blocks,
            finder,
            number,
        }
    }

    /// An equal value.
    pub fn try_copy(&self, alloc: Global) -> Result<Dirt, NoMemory>
        ensures { IfOk result (λ d. d ≡ self.now) }
    {
        Ok(Dirt {
            alloc,
            blocks: copy_of(alloc, &self.blocks)?,
            finder: Finder::new(alloc),
            number: self.number,
        })
    }
}
