ghost use Rattle.std.specs.Prelude.{◌≡◌, ◌↔◌, [], ◌∷◌, ◌++◌, IsTrue, IfOk, OnOk, OnErr};
ghost use Rattle.topology_terms.specs.Changes.{IsUnchanged};
ghost use Rattle.topology_terms.specs.Extents.{is_whole};
ghost use Rattle.topology_terms.specs.Entry as terms;
ghost use Rattle.error_store.specs.Keys.{key_of};

use crate::key::Key;
use convex_cell::{Cell, Cells};
use grid_plane::{NoMemory, Rect};
use std::alloc::Global;
use std::marker::Model;
use topology_terms::Extent;

#[derive(Drop)]
struct Body {
    key: Key,
    extent: Extent,
    marked: bool,
    frame: Rect,
    cells: Cells,
}

/// An error of a rule. Error features and exceptions of a geodatabase topology (Esri). What is said of it stands in a box, so
/// that it costs little to move it.
#[derive(Drop)]
pub struct Entry {
    body: Box<Body>,
}

impl Model for Entry {
    ghost use Rattle.topology_terms.specs.Extents.{is_whole};
    ghost use Rattle.topology_terms.specs.Entry as terms;

    ghost Value = { terms.Entry };

    ghost view = { λ e. record { rule = e.body.value.key.rule; subject = e.body.value.key.subject; other = e.body.value.key.other; whole = is_whole e.body.value.extent; marked = e.body.value.marked; frame = e.body.value.frame; cells = e.body.value.cells } };
}

/// Whether both are one rectangle.
pub(crate) fn is_same_rect(a: &Rect, b: &Rect) -> bool
    ensures { IsTrue result ↔ (a.now ≡ b.now) }
{
    a.holds_rect(b) && b.holds_rect(a)
}

impl Entry {
    /// The error of this key, of the whole subject or of the cells, with its mark and its frame.
    pub fn new(
        alloc: Global,
        key: Key,
        extent: Extent,
        marked: bool,
        frame: Rect,
        cells: Cells,
    ) -> Result<Entry, NoMemory>
        ensures { IfOk result (λ e. e ≡ record { rule = key.rule; subject = key.subject; other = key.other; whole = is_whole extent; marked = marked; frame = frame; cells = cells }) }
    {
        let body = Body {
            key,
            extent,
            marked,
            frame,
            cells,
        };
        Ok(Entry {
            body: Box::new(alloc, body)?,
        })
    }

    /// By what it is known.
    pub fn key(&self) -> Key
        ensures { result ≡ key_of self.now }
    {
        self.body.key
    }

    /// Whether the whole subject breaks the rule, or it is broken in cells.
    pub fn extent(&self) -> Extent
        ensures { is_whole result ≡ self.now.whole }
    {
        self.body.extent
    }

    /// Whether the whole subject breaks the rule; there are no cells then.
    pub fn whole(&self) -> bool
        ensures { result ≡ self.now.whole }
    {
        match self.body.extent {
            Extent::Whole => true,
            Extent::Cells => false,
        }
    }

    /// Whether it is an exception.
    pub fn marked(&self) -> bool
        ensures { result ≡ self.now.marked }
    {
        self.body.marked
    }

    /// The least rectangle of the grid that holds all its points, in grid units; of a whole entry the subject's envelope.
    pub fn frame(&self) -> Rect
        ensures { result ≡ self.now.frame }
    {
        self.body.frame
    }

    /// Where the rule is broken.
    pub fn cells(&self) -> &Cells
        ensures { result.now ≡ self.now.cells }
    {
        &self.body.cells
    }

    /// A cell more, behind the others. After an `Err`, out of memory, nothing has changed.
    pub fn push_cell(&mut self, cell: Cell) -> Result<(), NoMemory>
        ensures ok { OnOk result (self.new ≡ record self.old { cells = self.old.cells ++ cell ∷ [] }) }
        ensures err { OnErr result (self.new ≡ self.old) }
    {
        self.body.cells.push(cell)
    }

    /// Whether extent, frame and cells are the same.
    pub(crate) fn is_unchanged(&self, other: &Entry) -> bool
        ensures { IsTrue result ↔ IsUnchanged self.now other.now }
    {
        self.whole() == other.whole()
            && is_same_rect(&self.frame(), &other.frame())
            && self.cells().same(other.cells())
    }

    /// Sets the mark, or takes it away.
    pub(crate) fn set_mark(&mut self, on: bool)
        ensures { self.new ≡ record self.old { marked = on } }
    {
        self.body.marked = on;
    }

    /// An equal value.
    pub fn try_copy(&self, alloc: Global) -> Result<Entry, NoMemory>
        ensures { IfOk result (λ e. e ≡ self.now) }
    {
        let cells = self.cells().try_copy(alloc)?;
        Entry::new(
            alloc,
            self.key(),
            self.extent(),
            self.marked(),
            self.frame(),
            cells,
        )
    }
}
