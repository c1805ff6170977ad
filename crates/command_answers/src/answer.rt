ghost use Rattle.std.specs.Prelude.{◌≡◌, true, false, None, IfOk, OnErr};
ghost use Rattle.topology_terms.specs.Project.{IsOrdered};
ghost use Rattle.topology_terms.specs.Settled.{IsSettled};
ghost use Rattle.topology_terms.specs.Sound.{IsSound};
ghost use Rattle.line_terms.specs.Commands as commands;
ghost use Rattle.script_text.specs.Seen.{command_of};
ghost use Rattle.command_answers.specs.Worlds.{may_stop};
ghost use Rattle.script_terms.specs.Answer.{Answers};
ghost use Rattle.script_terms.specs.Reply as replies;
ghost use Rattle.script_terms.specs.State.{OfAll, State, desk_of};
ghost use Rattle.script_terms.specs.Refusal.{VersionsThere};
ghost use Rattle.script_terms.specs.Versions.{IsAnswered, barred, is_of_one};
ghost use Rattle.topology_terms.specs.Causes.{when};
ghost use Rattle.reply_text.specs.Replies.{said_of};

use crate::world::World;
use grid_plane::NoMemory;
use reply_text::{Refusal, Reply};
use rules::poster_law;
use script_text::Command;
use topo_core::Key;

/// The law of commands: from one state a command has one reply, and leaves one state.
#[tactic(auto, using(crate::proofs::AllVersions::one_reply))]
pub fn one_answer_law()
    ensures { (s t u : State) (c : commands.Command) (reply said : replies.Reply) → OfAll IsOrdered t → OfAll IsOrdered u
        → IsAnswered s c reply t → IsAnswered s c said u → (reply ≡ said) × (t ≡ u) }
{
    poster_law();
}

impl World {
    /// Does what the command asks for, and answers what the reply says; a listing lists the current version as it is then. If
    /// memory runs out, nothing has changed, but in a discard, where the last steps may be undone, and in a reconcile and a post,
    /// where the next handle may be raised and the first handles set; a sound version is sound still, and a settled one settled.
    pub fn answer(&mut self, command: Command) -> Result<Reply, NoMemory>
        ensures answers { IfOk result (λ r. IsAnswered self.old (command_of command) (said_of self.new.project r) self.new) }
        ensures sound { OfAll IsSound self.old → OfAll IsSound self.new }
        ensures settled { OfAll IsSettled self.old → OfAll IsSettled self.new }
        ensures kept { OnErr result (may_stop (command_of command) ≡ false → self.new ≡ self.old) }
    {
        match command {
            Command::Version(name) => self.answer_version(name),
            Command::In(name) => self.answer_in(&name),
            Command::Reconcile(name) => self.answer_reconcile(&name),
            Command::Post(name) => self.answer_post(&name),
            command => self.answer_one(command),
        }
    }

    // Does what the command asks for, which is none of versions.
    fn answer_one(&mut self, command: Command) -> Result<Reply, NoMemory>
        requires { is_of_one (command_of command) ≡ true }
        ensures answers { IfOk result (λ r. IsAnswered self.old (command_of command) (said_of self.new.project r) self.new) }
        ensures sound { OfAll IsSound self.old → OfAll IsSound self.new }
        ensures settled { OfAll IsSettled self.old → OfAll IsSettled self.new }
        ensures kept { OnErr result (may_stop (command_of command) ≡ false → self.new ≡ self.old) }
    {
        if self.is_barred(&command) {
            return Ok(Reply::Refused(Refusal::VersionsThere));
        }
        self.answer_at_desk(command)
    }

    // Whether the command is refused since there are versions beside `default`.
    fn is_barred(&self, command: &Command) -> bool
        requires { is_of_one (command_of command.now) ≡ true }
        ensures { barred self.now (command_of command.now) ≡ when result VersionsThere }
    {
        match command {
            Command::Class(_, _) | Command::Rule(_, _, _) | Command::DropRule(_) => {
                !self.tree.alone()
            }
            _ => false,
        }
    }

    // Does what the command asks for in the current version.
    #[tactic(auto, using(crate::proofs::AllVersions::alone_there))]
    fn answer_at_desk(&mut self, command: Command) -> Result<Reply, NoMemory>
        requires one { is_of_one (command_of command) ≡ true }
        requires free { barred self.old (command_of command) ≡ None }
        ensures answers { IfOk result (λ r. Answers (desk_of self.old) (command_of command) (said_of self.new.project r) (desk_of self.new)) }
        ensures sound { IsSound self.old.project → IsSound self.new.project }
        ensures settled { IsSettled self.old.project → IsSettled self.new.project }
        ensures aside { self.new.aside ≡ self.old.aside }
        ensures kept { OnErr result (may_stop (command_of command) ≡ false → self.new ≡ self.old) }
    {
        match command {
            Command::Blank => Ok(Reply::Nothing),
            Command::Class(name, kind) => self.answer_class(name, kind),
            Command::Rule(kind, origin, dest) => self.answer_rule(kind, &origin, &dest),
            Command::DropRule(rule) => Ok(self.answer_drop_rule(rule)),
            Command::Begin(editor) => self.answer_begin(editor),
            Command::End(editor) => self.answer_end(&editor),
            Command::Discard(editor) => self.answer_discard(&editor),
            Command::Add(editor, own, shape) => self.answer_add(&editor, &own, shape),
            Command::Change(editor, handle, shape) => self.answer_change(&editor, handle, shape),
            Command::Delete(editor, handle) => self.answer_delete(&editor, handle),
            Command::Retype(editor, handle, subtype) => self.answer_retype(
                &editor, handle, subtype,
            ),
            Command::Undo(editor) => self.answer_undo(&editor),
            Command::Redo(editor) => self.answer_redo(&editor),
            Command::Explode(editor, handle) => self.answer_explode(&editor, handle),
            Command::Snap(editor, rule, handle, end, to) => self.answer_snap(
                &editor, rule, handle, end, to,
            ),
            Command::Create(editor, rule, handle, at) => self.answer_create(
                &editor, rule, handle, at,
            ),
            Command::Move(editor, from, to) => self.answer_move(&editor, from, to),
            Command::Validate(window) => self.answer_validate(window),
            Command::Mark(rule, subject, other) => {
                Ok(self.answer_mark(Key {
                    rule,
                    subject,
                    other,
                }))
            }
            Command::Unmark(rule, subject, other) => {
                Ok(self.answer_unmark(Key {
                    rule,
                    subject,
                    other,
                }))
            }
            Command::Dirty => Ok(Reply::DirtyList),
            Command::Errors => Ok(Reply::ErrorList),
            Command::Cells => Ok(Reply::CellList),
            Command::Features => Ok(Reply::FeatureList),
            Command::Rules => Ok(Reply::RuleList),
            Command::Corners(rule, subject, other) => {
                self.answer_corners(Key {
                    rule,
                    subject,
                    other,
                })
            }
            Command::Version(_) => unreachable!(),
            Command::In(_) => unreachable!(),
            Command::Reconcile(_) => unreachable!(),
            Command::Post(_) => unreachable!(),
        }
    }
}
