ghost use Rattle.std.specs.Prelude.{◌≡◌, ◌≢◌, ◌≤◌, ℕ, List, [], length, is_some, None, Some, MatchOption, IfOk, IfErr, OnOk, OnErr};
ghost use Rattle.session_terms.specs.KeptChanges.{kept_named, kept_holder, without_kept};
ghost use Rattle.edit_session.specs.Faults.{HasRoom, IsBeginFault, IsEndFault, IsSessionFault, IsUndoFault, IsRedoFault};
ghost use Rattle.edit_session.specs.SessionsCalls.{MayNamed, IsStill, IsRoomMade, IsBegun, IsNoted, IsUndone, IsRedone, IsDiscarded, IsDiscardFault};

use crate::fault::SessionFault;
use crate::ground_of::Ground;
use crate::place::{index_of, place_of};
use crate::session::Session;
use crate::step::Step;
use grid_plane::Name;
use std::alloc::Global;
use std::marker::Model;

// The most sessions that may be open.
const SESSION_LIMIT: usize = 16;

/// The open sessions, in the order of their names.
#[derive(Drop)]
pub struct Sessions {
    alloc: Global,
    sessions: Vec<Session>,
}

impl Model for Sessions {
    ghost use Rattle.std.specs.Prelude.{List, length, ◌≤◌};
    ghost use Rattle.session_terms.specs.Kept.{KeptSession};

    ghost Value = { List KeptSession };

    ghost view = { λ s. s.sessions.items };

    ghost invariant = { λ s. length s.sessions.items ≤ 16 };
}

impl Sessions {
    /// No session.
    pub fn new(alloc: Global) -> Sessions
        ensures { result ≡ [] }
    {
        Sessions {
            alloc,
            sessions: Vec::new(alloc),
        }
    }

    /// How many sessions are open.
    pub fn len(&self) -> usize
        ensures { result ≡ length self.now }
    {
        self.sessions.len()
    }

    /// Whether the session of this editor is open.
    pub fn is_open(&self, name: &Name) -> bool
        ensures { result ≡ is_some (kept_named self.now name.now) }
    {
        index_of(&self.sessions, name).is_some()
    }

    /// Makes room for a step more in the session of this editor.
    pub fn room(&mut self, name: &Name) -> Result<(), SessionFault>
        ensures room { OnOk result (HasRoom self.new name.now) }
        ensures made { OnOk result (IsRoomMade name.now self.old self.new) }
        ensures refused { IfErr result (IsSessionFault self.old name.now) }
        ensures kept { OnErr result (self.new ≡ self.old) }
    {
        let Some(index) = index_of(&self.sessions, name) else {
            return Err(SessionFault::NoSession);
        };
        self.sessions[index].room()?;
        Ok(())
    }

    /// Undoes the last done step of the session of this editor on the ground. Refused where there is no such session, then
    /// where no step is done; after a refusal nothing has changed.
    pub fn undo<G: Ground>(&mut self, name: &Name, ground: &mut G) -> Result<(), SessionFault>
        requires may { MayNamed (G.may_stand ground.old) name.now self.old }
        ensures done { OnOk result (IsUndone G.swapped name.now self.old self.new ground.old ground.new) }
        ensures refused { IfErr result (IsUndoFault self.old name.now) }
        ensures kept { OnErr result (self.new ≡ self.old) }
        ensures same { OnErr result (IsStill G.same ground.old ground.new) }
    {
        let Some(index) = index_of(&self.sessions, name) else {
            return Err(SessionFault::NoSession);
        };
        let session = &mut self.sessions[index];
        if session.has_none_done() {
            return Err(SessionFault::NothingToUndo);
        }
        session.undo(ground)?;
        Ok(())
    }

    /// Does the first undone step of the session of this editor again on the ground. Refused where there is no such session,
    /// then where no step is undone; after a refusal nothing has changed.
    pub fn redo<G: Ground>(&mut self, name: &Name, ground: &mut G) -> Result<(), SessionFault>
        requires may { MayNamed (G.may_stand ground.old) name.now self.old }
        ensures done { OnOk result (IsRedone G.swapped name.now self.old self.new ground.old ground.new) }
        ensures refused { IfErr result (IsRedoFault self.old name.now) }
        ensures kept { OnErr result (self.new ≡ self.old) }
        ensures same { OnErr result (IsStill G.same ground.old ground.new) }
    {
        let Some(index) = index_of(&self.sessions, name) else {
            return Err(SessionFault::NoSession);
        };
        let session = &mut self.sessions[index];
        if session.has_none_undone() {
            return Err(SessionFault::NothingToRedo);
        }
        session.redo(ground)?;
        Ok(())
    }

    /// Puts the step last in the session of this editor, done; the undone ones go. Takes no memory: there is room.
    pub fn note_in(&mut self, name: &Name, step: Step)
        requires room { HasRoom self.old name.now }
        ensures { IsNoted name.now step self.old self.new }
    {
        if let Some(index) = index_of(&self.sessions, name) {
            self.sessions[index].note_in(step);
        }
    }

    /// Ends the session of this editor; its steps stand. Refused where there is no such session. Takes no memory.
    pub fn end(&mut self, name: &Name) -> Result<(), SessionFault>
        ensures done { OnOk result (self.new ≡ without_kept self.old name.now) }
        ensures there { OnOk result (kept_named self.old name.now ≢ None) }
        ensures refused { IfErr result (IsEndFault self.old name.now) }
        ensures kept { OnErr result (self.new ≡ self.old) }
    {
        let Some(index) = index_of(&self.sessions, name) else {
            return Err(SessionFault::NoSession);
        };
        self.sessions.remove(index);
        Ok(())
    }

    /// Undoes the done steps of the session of this editor on the ground, the last one first, and ends it. Refused where
    /// there is no such session. If memory runs out, the last ones may be undone, and the session stays open.
    pub fn discard<G: Ground>(&mut self, name: &Name, ground: &mut G) -> Result<(), SessionFault>
        requires may { MayNamed (G.may_stand ground.old) name.now self.old }
        ensures done { OnOk result (IsDiscarded G.swapped name.now self.old self.new ground.old ground.new) }
        ensures refused { IfErr result (IsDiscardFault G.swapped G.same name.now self.old self.new ground.old ground.new) }
    {
        let Some(index) = index_of(&self.sessions, name) else {
            return Err(SessionFault::NoSession);
        };
        if self.sessions[index].undo_all(ground).is_err() {
            return Err(SessionFault::NoMemory);
        }
        self.sessions.remove(index);
        Ok(())
    }

    /// Opens a session of this editor, without steps. Refused where one is open, then where 16 are; after a refusal nothing
    /// has changed.
    pub fn begin(&mut self, name: Name) -> Result<(), SessionFault>
        ensures done { OnOk result (IsBegun name self.old self.new) }
        ensures refused { IfErr result (IsBeginFault self.old name) }
        ensures kept { OnErr result (self.new ≡ self.old) }
    {
        if self.is_open(&name) {
            return Err(SessionFault::OpenAlready);
        }
        if self.sessions.len() == SESSION_LIMIT {
            return Err(SessionFault::SessionsFull);
        }
        let index = place_of(&self.sessions, &name);
        self.sessions.insert(index, Session::new(self.alloc, name))?;
        Ok(())
    }

    /// The name of the first session that has a step of this handle, done or undone: it holds the handle.
    pub fn holder(&self, handle: u32) -> Option<&Name>
        ensures { MatchOption result (kept_holder self.now handle ≡ None) (λ n. kept_holder self.now handle ≡ Some n.now) }
    {
        for session in &self.sessions {
            if session.has_step(handle) {
                return Some(session.name());
            }
        }
        None
    }
}
