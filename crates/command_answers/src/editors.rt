ghost use Rattle.std.specs.Prelude.{◌≡◌, None, Some, MatchOption, IfOk, OnErr};
ghost use Rattle.topology_terms.specs.Settled.{IsSettled};
ghost use Rattle.topology_terms.specs.Sound.{IsSound};
ghost use Rattle.line_terms.specs.Commands.{Begin, End, Discard, Delete, Undo, Redo};
ghost use Rattle.session_terms.specs.KeptChanges.{kept_holder};
ghost use Rattle.script_terms.specs.Answer.{Answers};
ghost use Rattle.script_terms.specs.Refusal as refusals;
ghost use Rattle.script_terms.specs.Refusing.{held_by, refusal_of};
ghost use Rattle.script_terms.specs.State.{desk_of, is_open};
ghost use Rattle.reply_text.specs.Replies.{said_of};
ghost use Rattle.reply_text.specs.Replies as seen;

use crate::refused::reply_to_session;
use crate::world::World;
use edit_session::Sessions;
use grid_plane::{Name, NoMemory};
use reply_text::{Refusal, Reply};
use topology_terms::Cause;

fn copy_of(name: &Name) -> Name
    ensures { result ≡ name.now }
{
    Name::of(name.bytes()).unwrap()
}

// The editor of another session, where one holds the handle.
#[tactic(auto, using(crate::proofs::SessionLines::held_none, crate::proofs::SessionLines::held_own, crate::proofs::SessionLines::held_other))]
pub(crate) fn other_holder(sessions: &Sessions, editor: &Name, handle: u32) -> Option<Name>
    ensures { MatchOption result (held_by (kept_holder sessions.now handle) editor.now ≡ None)
        (λ n. held_by (kept_holder sessions.now handle) editor.now ≡ Some (refusals.HeldBy n)) }
{
    let holder = sessions.holder(handle)?;
    if holder.bytes() == editor.bytes() {
        return None;
    }
    Some(copy_of(holder))
}

impl World {
    /// Whether the session of this editor is open.
    #[tactic(auto, using(crate::proofs::KeptLists::open_seen))]
    pub(crate) fn is_open(&self, editor: &Name) -> bool
        ensures { result ≡ is_open (desk_of self.now) editor.now }
    {
        self.sessions.is_open(editor)
    }

    // Why this editor does not change the feature, whatever the change: no session, no feature, or another session holds it.
    #[tactic(auto, using(crate::proofs::SessionLines::edit_free, crate::proofs::SessionLines::edit_held, crate::proofs::SessionLines::edit_absent))]
    pub(crate) fn edit_refusal(&self, editor: &Name, handle: u32) -> Option<Refusal>
        ensures { MatchOption result (refusal_of (desk_of self.now) (Delete editor.now handle) ≡ None)
            (λ r. refusal_of (desk_of self.now) (Delete editor.now handle) ≡ Some (seen.refusal_of r)) }
    {
        if !self.is_open(editor) {
            return Some(Refusal::NoSession);
        }
        let Some(_) = self.tree.current().store().get(handle) else {
            return Some(Refusal::Change(Cause::NoFeature));
        };
        let holder = other_holder(&self.sessions, editor, handle)?;
        Some(Refusal::HeldBy(holder))
    }

    /// `begin EDITOR`
    pub(crate) fn answer_begin(&mut self, editor: Name) -> Result<Reply, NoMemory>
        ensures answers { IfOk result (λ r. Answers (desk_of self.old) (Begin editor) (said_of self.new.project r) (desk_of self.new)) }
        ensures sound { IsSound self.old.project → IsSound self.new.project }
        ensures settled { IsSettled self.old.project → IsSettled self.new.project }
        ensures aside { self.new.aside ≡ self.old.aside }
        ensures err { OnErr result (self.new ≡ self.old) }
    {
        reply_to_session(self.sessions.begin(editor))
    }

    /// `end EDITOR`
    pub(crate) fn answer_end(&mut self, editor: &Name) -> Result<Reply, NoMemory>
        ensures answers { IfOk result (λ r. Answers (desk_of self.old) (End editor.now) (said_of self.new.project r) (desk_of self.new)) }
        ensures sound { IsSound self.old.project → IsSound self.new.project }
        ensures settled { IsSettled self.old.project → IsSettled self.new.project }
        ensures aside { self.new.aside ≡ self.old.aside }
        ensures err { OnErr result (self.new ≡ self.old) }
    {
        reply_to_session(self.sessions.end(editor))
    }

    /// `discard EDITOR`. If memory runs out, the session's last steps may be undone, and it stays open.
    pub(crate) fn answer_discard(&mut self, editor: &Name) -> Result<Reply, NoMemory>
        ensures answers { IfOk result (λ r. Answers (desk_of self.old) (Discard editor.now) (said_of self.new.project r) (desk_of self.new)) }
        ensures sound { IsSound self.old.project → IsSound self.new.project }
        ensures settled { IsSettled self.old.project → IsSettled self.new.project }
        ensures aside { self.new.aside ≡ self.old.aside }
    {
        reply_to_session(self.sessions.discard(editor, &mut self.tree))
    }

    /// `by EDITOR undo`
    pub(crate) fn answer_undo(&mut self, editor: &Name) -> Result<Reply, NoMemory>
        ensures answers { IfOk result (λ r. Answers (desk_of self.old) (Undo editor.now) (said_of self.new.project r) (desk_of self.new)) }
        ensures sound { IsSound self.old.project → IsSound self.new.project }
        ensures settled { IsSettled self.old.project → IsSettled self.new.project }
        ensures aside { self.new.aside ≡ self.old.aside }
        ensures err { OnErr result (self.new ≡ self.old) }
    {
        reply_to_session(self.sessions.undo(editor, &mut self.tree))
    }

    /// `by EDITOR redo`
    pub(crate) fn answer_redo(&mut self, editor: &Name) -> Result<Reply, NoMemory>
        ensures answers { IfOk result (λ r. Answers (desk_of self.old) (Redo editor.now) (said_of self.new.project r) (desk_of self.new)) }
        ensures sound { IsSound self.old.project → IsSound self.new.project }
        ensures settled { IsSettled self.old.project → IsSettled self.new.project }
        ensures aside { self.new.aside ≡ self.old.aside }
        ensures err { OnErr result (self.new ≡ self.old) }
    {
        reply_to_session(self.sessions.redo(editor, &mut self.tree))
    }
}
