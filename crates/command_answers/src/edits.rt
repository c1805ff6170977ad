ghost use Rattle.std.specs.Prelude.{◌≡◌, ◌≤◌, IfOk, OnErr, unwrap_or};
ghost use Rattle.topology_terms.specs.Settled.{IsSettled};
ghost use Rattle.topology_terms.specs.Sound.{IsSound};
ghost use Rattle.line_terms.specs.Commands.{Add, Change, Delete, Retype, Validate};
ghost use Rattle.script_terms.specs.Answer.{Answers};
ghost use Rattle.script_terms.specs.State.{desk_of};
ghost use Rattle.reply_text.specs.Replies.{said_of};

use crate::noted::{add_noted, change_noted, delete_noted, retype_noted};
use crate::refused::{reply_to_add, reply_to_change};
use crate::world::World;
use grid_plane::{Name, NoMemory, Rect};
use reply_text::{Refusal, Reply};
use rule_core::Work;
use script_text::Sided;
use shape::Shape;
use topology_terms::Cause;

// A work whose count is lower than this can count a whole validation.
const COUNTED: u64 = 1 << 40;

// A work with a high count gives way to a new one, and what it keeps goes.
fn begin_count(work: &mut Work)
    ensures { work.new.judged ≤ 1099511627776 }
{
    if work.judged() > COUNTED {
        *work = Work::new();
    }
}

// The subtype of a feature that a line adds: 0 where it names none.
fn subtype_of(own: &Sided) -> u8
    ensures { result ≡ unwrap_or own.now.subtype 0 }
{
    own.subtype.unwrap_or(0)
}

impl World {
    /// `by EDITOR add CLASS SHAPE`
    #[tactic(auto, using(crate::proofs::Replying::add_replied))]
    pub(crate) fn answer_add(
        &mut self,
        editor: &Name,
        own: &Sided,
        shape: Shape,
    ) -> Result<Reply, NoMemory>
        ensures answers { IfOk result (λ r. Answers (desk_of self.old) (Add editor.now own.now shape) (said_of self.new.project r) (desk_of self.new)) }
        ensures sound { IsSound self.old.project → IsSound self.new.project }
        ensures settled { IsSettled self.old.project → IsSettled self.new.project }
        ensures aside { self.new.aside ≡ self.old.aside }
        ensures err { OnErr result (self.new ≡ self.old) }
    {
        if !self.is_open(editor) {
            return Ok(Reply::Refused(Refusal::NoSession));
        }
        let Some(class) = self.tree.current().store().class_by_name(&own.name) else {
            return Ok(Reply::Refused(Refusal::Change(Cause::NoClass)));
        };
        self.tree.current_law();
        let subtype = subtype_of(own);
        reply_to_add(add_noted(
            &mut self.tree,
            &mut self.sessions,
            editor,
            class,
            subtype,
            shape,
        ))
    }

    /// `by EDITOR change H SHAPE`
    #[tactic(auto, using(crate::proofs::Answering::change_stopped))]
    pub(crate) fn answer_change(
        &mut self,
        editor: &Name,
        handle: u32,
        shape: Shape,
    ) -> Result<Reply, NoMemory>
        ensures answers { IfOk result (λ r. Answers (desk_of self.old) (Change editor.now handle shape) (said_of self.new.project r) (desk_of self.new)) }
        ensures sound { IsSound self.old.project → IsSound self.new.project }
        ensures settled { IsSettled self.old.project → IsSettled self.new.project }
        ensures aside { self.new.aside ≡ self.old.aside }
        ensures err { OnErr result (self.new ≡ self.old) }
    {
        if let Some(refusal) = self.edit_refusal(editor, handle) {
            return Ok(Reply::Refused(refusal));
        }
        self.tree.current_law();
        reply_to_change(change_noted(&mut self.tree, &mut self.sessions, editor, handle, shape))
    }

    /// `by EDITOR delete H`
    #[tactic(auto, using(crate::proofs::Answering::delete_stopped))]
    pub(crate) fn answer_delete(&mut self, editor: &Name, handle: u32) -> Result<Reply, NoMemory>
        ensures answers { IfOk result (λ r. Answers (desk_of self.old) (Delete editor.now handle) (said_of self.new.project r) (desk_of self.new)) }
        ensures sound { IsSound self.old.project → IsSound self.new.project }
        ensures settled { IsSettled self.old.project → IsSettled self.new.project }
        ensures aside { self.new.aside ≡ self.old.aside }
        ensures err { OnErr result (self.new ≡ self.old) }
    {
        if let Some(refusal) = self.edit_refusal(editor, handle) {
            return Ok(Reply::Refused(refusal));
        }
        self.tree.current_law();
        reply_to_change(delete_noted(&mut self.tree, &mut self.sessions, editor, handle))
    }

    /// `by EDITOR retype H SUBTYPE`
    #[tactic(auto, using(crate::proofs::Answering::retype_stopped))]
    pub(crate) fn answer_retype(
        &mut self,
        editor: &Name,
        handle: u32,
        subtype: u8,
    ) -> Result<Reply, NoMemory>
        ensures answers { IfOk result (λ r. Answers (desk_of self.old) (Retype editor.now handle subtype) (said_of self.new.project r) (desk_of self.new)) }
        ensures sound { IsSound self.old.project → IsSound self.new.project }
        ensures settled { IsSettled self.old.project → IsSettled self.new.project }
        ensures aside { self.new.aside ≡ self.old.aside }
        ensures err { OnErr result (self.new ≡ self.old) }
    {
        if let Some(refusal) = self.edit_refusal(editor, handle) {
            return Ok(Reply::Refused(refusal));
        }
        self.tree.current_law();
        reply_to_change(retype_noted(&mut self.tree, &mut self.sessions, editor, handle, subtype))
    }

    /// `validate X0 Y0 X1 Y1`, and `validate all`
    #[tactic(auto, using(crate::proofs::Answering::validated))]
    pub(crate) fn answer_validate(&mut self, window: Rect) -> Result<Reply, NoMemory>
        ensures answers { IfOk result (λ r. Answers (desk_of self.old) (Validate window) (said_of self.new.project r) (desk_of self.new)) }
        ensures sound { IsSound self.old.project → IsSound self.new.project }
        ensures settled { IsSettled self.old.project → IsSettled self.new.project }
        ensures aside { self.new.aside ≡ self.old.aside }
        ensures err { OnErr result (self.new ≡ self.old) }
    {
        self.tree.current_law();
        self.tree.current().store().next_handle();
        begin_count(&mut self.work);
        Ok(Reply::Judged(self.tree.validate(window, &mut self.work)?))
    }
}
