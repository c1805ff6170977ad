ghost use Rattle.std.specs.Prelude.{◌≡◌, ◌≢◌, ◌==◌, ◌≤◌, [], length, bytes_eq, OnOk, OnErr};
ghost use Rattle.std.specs.List.{list_any};
ghost use Rattle.session_terms.specs.Kept.{KeptStep};
ghost use Rattle.session_terms.specs.KeptChanges.{has_kept_step, IsKeptNoted, IsSameButRoom};
ghost use Rattle.edit_session.specs.Moves.{MayAll, IsUndoneOn, IsRedoneOn, AreUndoneOn, IsCutShort};

use crate::ground_of::Ground;
use crate::step::Step;
use crate::steps::Steps;
use grid_plane::{Name, NoMemory};
use std::alloc::Global;
use std::marker::Model;

/// An open session: the editor's name and the steps, of which the first ones are done.
#[derive(Drop)]
pub struct Session {
    name: Name,
    steps: Steps,
    done: usize,
}

impl Model for Session {
    ghost use Rattle.std.specs.Prelude.{◌≤◌, take, drop, length};
    ghost use Rattle.session_terms.specs.Kept.{KeptSession};

    ghost Value = { KeptSession };

    ghost view = { λ s. record { name = s.name; done = take s.done s.steps.items; undone = drop s.done s.steps.items; room = s.steps.room } };

    ghost invariant = { λ s. s.done ≤ length s.steps.items };
}

impl Session {
    /// A session of this editor, without steps.
    pub fn new(alloc: Global, name: Name) -> Session
        ensures name { result.name ≡ name }
        ensures done { result.done ≡ [] }
        ensures undone { result.undone ≡ [] }
    {
        Session {
            name,
            steps: Steps::new(alloc),
            done: 0,
        }
    }

    pub fn name(&self) -> &Name
        ensures { result.now ≡ self.now.name }
    {
        &self.name
    }

    pub fn is_named(&self, name: &Name) -> bool
        ensures { result ≡ bytes_eq self.now.name name.now }
    {
        self.name.bytes() == name.bytes()
    }

    /// Whether no step is done.
    pub fn has_none_done(&self) -> bool
        ensures { result ≡ (length self.now.done == 0) }
    {
        self.done == 0
    }

    /// Whether no step is undone.
    pub fn has_none_undone(&self) -> bool
        ensures { result ≡ (length self.now.undone == 0) }
    {
        self.done == self.steps.len()
    }

    /// Whether a step, done or undone, is of this handle.
    pub fn has_step(&self, handle: u32) -> bool
        ensures { result ≡ has_kept_step self.now handle }
    {
        self.steps.has(handle)
    }

    /// Makes room for a step more.
    pub fn room(&mut self) -> Result<(), NoMemory>
        ensures room { OnOk result (1 ≤ self.new.room) }
        ensures same { IsSameButRoom self.old self.new }
        ensures kept { OnErr result (self.new ≡ self.old) }
    {
        self.steps.make_room()?;
        Ok(())
    }

    /// Puts the step last, done; the undone ones go. Takes no memory: there is room.
    pub fn note_in(&mut self, step: Step)
        requires room { 1 ≤ self.old.room }
        ensures { IsKeptNoted self.old step self.new }
    {
        self.steps.truncate(self.done);
        self.steps.push(step);
        self.done += 1;
    }

    fn undo_step<G: Ground>(&mut self, ground: &mut G) -> Result<(), NoMemory>
        requires some { self.old.done ≢ [] }
        requires may { MayAll (G.may_stand ground.old) self.old }
        ensures done { OnOk result (IsUndoneOn G.swapped self.old self.new ground.old ground.new) }
        ensures kept { OnErr result (self.new ≡ self.old) }
        ensures same { OnErr result (G.same ground.old ground.new) }
    {
        self.steps.swap(self.done - 1, ground)?;
        self.done -= 1;
        Ok(())
    }

    /// Undoes the last done step on the ground. If memory runs out, nothing has changed.
    pub fn undo<G: Ground>(&mut self, ground: &mut G) -> Result<(), NoMemory>
        requires some { self.old.done ≢ [] }
        requires may { MayAll (G.may_stand ground.old) self.old }
        ensures done { OnOk result (IsUndoneOn G.swapped self.old self.new ground.old ground.new) }
        ensures kept { OnErr result (self.new ≡ self.old) }
        ensures same { OnErr result (G.same ground.old ground.new) }
        ensures may { MayAll (G.may_stand ground.new) self.new }
    {
        self.undo_step(ground)?;
        Ok(())
    }

    fn redo_step<G: Ground>(&mut self, ground: &mut G) -> Result<(), NoMemory>
        requires some { self.old.undone ≢ [] }
        requires may { MayAll (G.may_stand ground.old) self.old }
        ensures done { OnOk result (IsRedoneOn G.swapped self.old self.new ground.old ground.new) }
        ensures kept { OnErr result (self.new ≡ self.old) }
        ensures same { OnErr result (G.same ground.old ground.new) }
    {
        self.steps.swap(self.done, ground)?;
        self.done += 1;
        Ok(())
    }

    /// Does the first undone step again on the ground. If memory runs out, nothing has changed.
    pub fn redo<G: Ground>(&mut self, ground: &mut G) -> Result<(), NoMemory>
        requires some { self.old.undone ≢ [] }
        requires may { MayAll (G.may_stand ground.old) self.old }
        ensures done { OnOk result (IsRedoneOn G.swapped self.old self.new ground.old ground.new) }
        ensures kept { OnErr result (self.new ≡ self.old) }
        ensures same { OnErr result (G.same ground.old ground.new) }
        ensures may { MayAll (G.may_stand ground.new) self.new }
    {
        self.redo_step(ground)?;
        Ok(())
    }

    /// Undoes all done steps on the ground, the last one first. If memory runs out, the last ones may be undone.
    pub fn undo_all<G: Ground>(&mut self, ground: &mut G) -> Result<(), NoMemory>
        requires may { MayAll (G.may_stand ground.old) self.old }
        ensures done { OnOk result (AreUndoneOn G.swapped self.old.done self.old self.new ground.old ground.new) }
        ensures name { self.new.name ≡ self.old.name }
        ensures none { OnOk result (self.new.done ≡ []) }
        ensures cut_short { OnErr result (IsCutShort G.swapped G.same self.old self.new ground.old ground.new) }
        ensures may { MayAll (G.may_stand ground.new) self.new }
    {
        while !self.has_none_done() {
            self.undo(ground)?;
        }
        Ok(())
    }
}
