ghost use Rattle.std.specs.Prelude.{◌≡◌, ◌==◌, ◌≤◌, ◌<◌, ◌-◌, ◌^◌, ◌∷◌, ◌++◌, [], length, take, OnOk, OnErr};
ghost use Rattle.std.specs.List.{list_any};
ghost use Rattle.session_terms.specs.Kept.{KeptStep};
ghost use Rattle.edit_session.specs.Moves.{MayEach};
ghost use Rattle.edit_session.specs.StepLists.{IsSwappedAt};

use crate::ground_of::Ground;
use crate::handles::HandleList;
use crate::kept::{self, Kept};
use crate::step::Step;
use grid_plane::NoMemory;
use std::alloc::Global;
use std::collections::HashMap;
use std::marker::Model;

/// The steps of a session. It finds a handle in little time, however many steps there are. What a step keeps stands apart, so that
/// one that keeps nothing, as each that added a feature, takes little room.
#[derive(Drop)]
pub(crate) struct Steps {
    handles: HandleList,
    kept: Kept,
    // for how many more steps there is room in both: one or none
    room: usize,
}

impl Model for Steps {
    ghost use Rattle.std.specs.Prelude.{◌≡◌, ◌≤◌, ℕ, None, length};
    ghost use Rattle.std.specs.HashMap.{spare};
    ghost use Rattle.edit_session.specs.StepLists.{StepList, steps_of, kept_in};

    ghost Value = { StepList };

    ghost view = { λ s. record { items = steps_of (kept_in s.kept) s.handles.items; room = s.room } };

    ghost invariant = { λ s. ((i : ℕ) → length s.handles.items ≤ i → kept_in s.kept i ≡ None) × (s.room ≤ s.handles.room) × (s.room ≤ spare s.kept) × (s.room ≤ 1) };
}

impl Steps {
    /// No step. Takes no memory.
    pub(crate) fn new(alloc: Global) -> Steps
        ensures { result.items ≡ [] }
    {
        Steps {
            handles: HandleList::new(alloc),
            kept: HashMap::new(alloc),
            room: 0,
        }
    }

    pub(crate) fn len(&self) -> usize
        ensures { result ≡ length self.now.items }
    {
        self.handles.len()
    }

    /// Whether a step is of this handle.
    pub(crate) fn has(&self, handle: u32) -> bool
        ensures { result ≡ list_any (λ (t : KeptStep). t.handle == handle) self.now.items }
    {
        self.handles.has(handle)
    }

    /// Makes room for a step more.
    pub(crate) fn make_room(&mut self) -> Result<(), NoMemory>
        ensures room { OnOk result (1 ≤ self.new.room) }
        ensures items { self.new.items ≡ self.old.items }
        ensures kept { OnErr result (self.new ≡ self.old) }
    {
        if self.room == 0 {
            self.handles.make_room()?;
            kept::make_room(&mut self.kept, 1)?;
            self.room = 1;
        }
        Ok(())
    }

    // Takes the last step off.
    fn drop_last(&mut self)
        ensures items { self.new.items ≡ take (length self.old.items - 1) self.old.items }
        ensures room { self.new.room ≡ self.old.room }
    {
        let Some(_) = self.handles.pop() else {
            return;
        };
        let index = self.handles.len();
        kept::take(&mut self.kept, index);
    }

    /// Leaves the first steps, as many as this.
    pub(crate) fn truncate(&mut self, len: usize)
        ensures items { self.new.items ≡ take len self.old.items }
        ensures room { self.new.room ≡ self.old.room }
    {
        while self.len() > len {
            self.drop_last();
        }
    }

    /// Puts a step last. Takes no memory: there is room.
    pub(crate) fn push(&mut self, step: Step)
        requires room { 1 ≤ self.old.room }
        ensures items { self.new.items ≡ self.old.items ++ step ∷ [] }
        ensures few { length self.new.items < 2 ^ 64 }
    {
        let Step { handle, kept } = step;
        let index = self.handles.len();
        kept::put(&mut self.kept, index, kept);
        self.handles.push(handle);
        self.room -= 1;
    }

    /// Exchanges what the step at this index keeps with what stands at its handle on the ground. If memory runs out, nothing
    /// has changed.
    pub(crate) fn swap<G: Ground>(&mut self, index: usize, ground: &mut G) -> Result<(), NoMemory>
        requires within { index < length self.old.items }
        requires may { MayEach (G.may_stand ground.old) self.old.items }
        ensures few { length self.new.items < 2 ^ 64 }
        ensures done { OnOk result (IsSwappedAt G.swapped index self.old.items self.new.items ground.old ground.new) }
        ensures kept { OnErr result (self.new ≡ self.old) }
        ensures same { OnErr result (G.same ground.old ground.new) }
    {
        let handle = self.handles.at(index);
        kept::make_room(&mut self.kept, 2)?;
        let mut kept = kept::take(&mut self.kept, index);
        let swapped = ground.swap(handle, &mut kept);
        kept::put(&mut self.kept, index, kept);
        swapped
    }
}
