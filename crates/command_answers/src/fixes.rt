ghost use Rattle.std.specs.Prelude.{◌≡◌, None, Some, true, false, is_some, MatchOption, IfOk, OnOk};
ghost use Rattle.plane_terms.specs.Point.{same_place};
ghost use Rattle.topology_terms.specs.Project.{Project, IsOrdered, AreAscending, rule_at};
ghost use Rattle.topology_terms.specs.Settled.{IsSettled};
ghost use Rattle.topology_terms.specs.Sound.{IsSound};
ghost use Rattle.line_terms.specs.Commands as commands;
ghost use Rattle.script_terms.specs.Answer.{Answers};
ghost use Rattle.script_terms.specs.Refusal as refusals;
ghost use Rattle.script_terms.specs.State.{desk_of};
ghost use Rattle.version_terms.specs.VersionChanges.{IsAside};
ghost use Rattle.reply_text.specs.Replies.{said_of};
ghost use Rattle.command_answers.specs.Refusals.{SaysRefusal};
ghost use Rattle.command_answers.specs.Worlds.{IsWorld};
ghost use Rattle.command_answers.specs.Planned.{AreReady, IsToldSo, IsMoveRefusal, made_reply, fix_refusal, first_other};

use crate::editors::other_holder;
use crate::planned::do_plan;
use crate::world::World;
use edit_session::Sessions;
use fix_tools::{FixFault, Plan, create, explode, move_all, snap, touched};
use grid_plane::{GridPoint, Name, NoMemory};
use reply_text::{Refusal, Reply};
use rule_core::InForce;
use rules::PosterRules;
use topology_terms::Cause;
use version_tree::Tree;

/// What a fix is answered that is done.
#[derive(Clone, Copy)]
pub enum Made {
    /// How many parts there are.
    Parts,
    /// Nothing more.
    Done,
    /// The handle of the new feature.
    Handle,
    /// How many features are moved.
    Moved,
}

// The reply to a plan of so many edits, before which this was the next handle.
fn reply_of(made: Made, count: usize, next: u32) -> Reply
    ensures { (p : Project) → said_of p result ≡ made_reply made count next }
{
    match made {
        Made::Parts => Reply::Parts(count),
        Made::Done => Reply::Done,
        Made::Handle => Reply::Number(next),
        Made::Moved => Reply::Moved(count),
    }
}

// What is answered where no plan was made.
fn refused_fix(fault: FixFault) -> Result<Reply, NoMemory>
    ensures { IfOk result (SaysRefusal (fix_refusal fault)) }
{
    match fault {
        FixFault::NoRule => Ok(Reply::Refused(Refusal::Change(Cause::NoRule))),
        FixFault::NoFeature => Ok(Reply::Refused(Refusal::Change(Cause::NoFeature))),
        FixFault::Nothing => Ok(Reply::Refused(Refusal::NothingToFix)),
        FixFault::Bad(fault) => Ok(Reply::Refused(Refusal::BadShape(fault))),
        FixFault::Spent => Ok(Reply::Refused(Refusal::Change(Cause::HandlesSpent))),
        FixFault::NoMemory => Err(NoMemory),
    }
}

// Whether a rule in force has this number.
#[tactic(auto, unfolding(topology_terms::specs::Project::rule_at))]
fn is_in_force(rules: &[InForce], number: u16) -> bool
    requires { AreAscending rules.now }
    ensures { result ≡ is_some (rule_at rules.now number) }
{
    for rule in rules {
        if rule.number == number {
            return true;
        }
    }
    false
}

fn is_same_place(a: GridPoint, b: GridPoint) -> bool
    ensures { result ≡ same_place a b }
{
    a.x() == b.x() && a.y() == b.y()
}

// The editor of another session that holds the least of these handles of which another one holds any.
fn first_holder(sessions: &Sessions, editor: &Name, handles: &[u32]) -> Option<Name>
    ensures { MatchOption result (first_other sessions.now handles.now editor.now ≡ None)
        (λ n. first_other sessions.now handles.now editor.now ≡ Some (refusals.HeldBy n)) }
{
    for handle in handles {
        if let Some(holder) = other_holder(sessions, editor, *handle) {
            return Some(holder);
        }
    }
    None
}

// Does a plan, if there is one, and answers what was made; or why there is none. If memory runs out, the first edits may be done.
#[tactic(auto, using(crate::proofs::Trees::aside_self))]
fn do_planned(
    tree: &mut Tree<PosterRules>,
    sessions: &mut Sessions,
    editor: &Name,
    planned: Result<Plan, FixFault>,
    made: Made,
) -> Result<Reply, NoMemory>
    requires world { IsWorld tree.old.current.project sessions.old }
    requires ready { AreReady editor.now planned tree.old.current.project sessions.old }
    ensures told { IfOk result (IsToldSo editor.now made planned tree.old.current.project tree.new.current.project sessions.old sessions.new) }
    ensures world { IsWorld tree.new.current.project sessions.new }
    ensures ordered { OnOk result (IsOrdered tree.new.current.project) }
    ensures sound { IsSound tree.old.current.project → IsSound tree.new.current.project }
    ensures settled { IsSettled tree.old.current.project → IsSettled tree.new.current.project }
    ensures aside { IsAside tree.old tree.new }
{
    tree.current_law();
    match planned {
        Ok(plan) => {
            let mut plan = plan;
            let count = plan.len();
            let next = tree.current().store().next_handle();
            do_plan(tree, sessions, editor, &mut plan)?;
            Ok(reply_of(made, count, next))
        }
        Err(fault) => refused_fix(fault),
    }
}

impl World {
    /// `by EDITOR explode H`. If memory runs out, some of the parts may be features already.
    #[tactic(auto, using(crate::proofs::Fixing::explode_stopped))]
    pub(crate) fn answer_explode(&mut self, editor: &Name, handle: u32) -> Result<Reply, NoMemory>
        ensures answers { IfOk result (λ r. Answers (desk_of self.old) (commands.Explode editor.now handle) (said_of self.new.project r) (desk_of self.new)) }
        ensures sound { IsSound self.old.project → IsSound self.new.project }
        ensures settled { IsSettled self.old.project → IsSettled self.new.project }
        ensures aside { self.new.aside ≡ self.old.aside }
    {
        if let Some(refusal) = self.edit_refusal(editor, handle) {
            return Ok(Reply::Refused(refusal));
        }
        self.tree.current_law();
        let planned = explode(self.alloc, self.tree.current(), handle);
        do_planned(
            &mut self.tree,
            &mut self.sessions,
            editor,
            planned,
            Made::Parts,
        )
    }

    /// `by EDITOR snap R H END X Y`
    #[tactic(auto, using(crate::proofs::Fixing::snap_closed, crate::proofs::Fixing::snap_no_rule, crate::proofs::Fixing::snap_stopped))]
    pub(crate) fn answer_snap(
        &mut self,
        editor: &Name,
        rule: u16,
        handle: u32,
        end: u32,
        to: GridPoint,
    ) -> Result<Reply, NoMemory>
        ensures answers { IfOk result (λ r. Answers (desk_of self.old) (commands.Snap editor.now rule handle end to) (said_of self.new.project r) (desk_of self.new)) }
        ensures sound { IsSound self.old.project → IsSound self.new.project }
        ensures settled { IsSettled self.old.project → IsSettled self.new.project }
        ensures aside { self.new.aside ≡ self.old.aside }
    {
        if !self.is_open(editor) {
            return Ok(Reply::Refused(Refusal::NoSession));
        }
        self.tree.current_law();
        if !is_in_force(self.tree.current().rules(), rule) {
            return Ok(Reply::Refused(Refusal::Change(Cause::NoRule)));
        }
        if let Some(refusal) = self.edit_refusal(editor, handle) {
            return Ok(Reply::Refused(refusal));
        }
        let planned = snap(self.alloc, self.tree.current(), rule, handle, end, to);
        do_planned(
            &mut self.tree,
            &mut self.sessions,
            editor,
            planned,
            Made::Done,
        )
    }

    /// `by EDITOR create R H X Y`
    #[tactic(auto, using(crate::proofs::Fixing::create_closed))]
    pub(crate) fn answer_create(
        &mut self,
        editor: &Name,
        rule: u16,
        handle: u32,
        at: GridPoint,
    ) -> Result<Reply, NoMemory>
        ensures answers { IfOk result (λ r. Answers (desk_of self.old) (commands.Create editor.now rule handle at) (said_of self.new.project r) (desk_of self.new)) }
        ensures sound { IsSound self.old.project → IsSound self.new.project }
        ensures settled { IsSettled self.old.project → IsSettled self.new.project }
        ensures aside { self.new.aside ≡ self.old.aside }
    {
        if !self.is_open(editor) {
            return Ok(Reply::Refused(Refusal::NoSession));
        }
        self.tree.current_law();
        self.tree.current().store().next_handle();
        let planned = create(self.alloc, self.tree.current(), rule, handle, at);
        do_planned(
            &mut self.tree,
            &mut self.sessions,
            editor,
            planned,
            Made::Handle,
        )
    }

    // Why this editor does not move the vertices at a place: no session, nothing to move, or another session holds a feature there.
    fn move_refusal(
        &self,
        editor: &Name,
        from: GridPoint,
        to: GridPoint,
    ) -> Result<Option<Refusal>, NoMemory>
        ensures { IfOk result (IsMoveRefusal (desk_of self.now) editor.now from to) }
    {
        if !self.is_open(editor) {
            return Ok(Some(Refusal::NoSession));
        }
        let handles = touched(self.alloc, self.tree.current(), from)?;
        if is_same_place(to, from) || handles.len() == 0 {
            return Ok(Some(Refusal::NothingToFix));
        }
        match first_holder(&self.sessions, editor, handles.items()) {
            Some(holder) => Ok(Some(Refusal::HeldBy(holder))),
            None => Ok(None),
        }
    }

    /// `by EDITOR move X Y X2 Y2`. If memory runs out, some of the features may be moved already.
    #[tactic(auto, using(crate::proofs::Fixing::move_stopped))]
    pub(crate) fn answer_move(
        &mut self,
        editor: &Name,
        from: GridPoint,
        to: GridPoint,
    ) -> Result<Reply, NoMemory>
        ensures answers { IfOk result (λ r. Answers (desk_of self.old) (commands.Move editor.now from to) (said_of self.new.project r) (desk_of self.new)) }
        ensures sound { IsSound self.old.project → IsSound self.new.project }
        ensures settled { IsSettled self.old.project → IsSettled self.new.project }
        ensures aside { self.new.aside ≡ self.old.aside }
    {
        let told = self.move_refusal(editor, from, to)?;
        if let Some(refusal) = told {
            return Ok(Reply::Refused(refusal));
        }
        self.tree.current_law();
        let planned = move_all(self.alloc, self.tree.current(), from, to);
        do_planned(
            &mut self.tree,
            &mut self.sessions,
            editor,
            planned,
            Made::Moved,
        )
    }
}
