ghost use Rattle.std.specs.Prelude.{◌≡◌, IfOk, OnErr};
ghost use Rattle.topology_terms.specs.Settled.{IsSettled};
ghost use Rattle.topology_terms.specs.Sound.{IsSound};
ghost use Rattle.line_terms.specs.Commands.{Version, In, Reconcile, Post};
ghost use Rattle.script_terms.specs.State.{OfAll};
ghost use Rattle.script_terms.specs.Versions.{IsAnswered};
ghost use Rattle.reply_text.specs.Replies.{said_of};

use crate::refused::{reply_to_merge, reply_to_post, reply_to_version};
use crate::world::World;
use grid_plane::{Name, NoMemory};
use reply_text::{Refusal, Reply};

impl World {
    /// `version NAME`
    pub(crate) fn answer_version(&mut self, name: Name) -> Result<Reply, NoMemory>
        ensures answers { IfOk result (λ r. IsAnswered self.old (Version name) (said_of self.new.project r) self.new) }
        ensures sound { OfAll IsSound self.old → OfAll IsSound self.new }
        ensures settled { OfAll IsSettled self.old → OfAll IsSettled self.new }
        ensures err { OnErr result (self.new ≡ self.old) }
    {
        if self.sessions.len() != 0 {
            return Ok(Reply::Refused(Refusal::SessionsOpen));
        }
        reply_to_version(self.tree.create(name))
    }

    /// `in NAME`
    pub(crate) fn answer_in(&mut self, name: &Name) -> Result<Reply, NoMemory>
        ensures answers { IfOk result (λ r. IsAnswered self.old (In name.now) (said_of self.new.project r) self.new) }
        ensures sound { OfAll IsSound self.old → OfAll IsSound self.new }
        ensures settled { OfAll IsSettled self.old → OfAll IsSettled self.new }
        ensures err { OnErr result (self.new ≡ self.old) }
    {
        if self.sessions.len() != 0 {
            return Ok(Reply::Refused(Refusal::SessionsOpen));
        }
        reply_to_version(self.tree.go(name))
    }

    /// `reconcile NAME`. If memory runs out, the version may have taken over the first handles.
    pub(crate) fn answer_reconcile(&mut self, name: &Name) -> Result<Reply, NoMemory>
        ensures answers { IfOk result (λ r. IsAnswered self.old (Reconcile name.now) (said_of self.new.project r) self.new) }
        ensures sound { OfAll IsSound self.old → OfAll IsSound self.new }
        ensures settled { OfAll IsSettled self.old → OfAll IsSettled self.new }
    {
        if self.sessions.len() != 0 {
            return Ok(Reply::Refused(Refusal::SessionsOpen));
        }
        reply_to_merge(self.tree.reconcile(name))
    }

    /// `post NAME`. If memory runs out, `default` may have the first handles.
    pub(crate) fn answer_post(&mut self, name: &Name) -> Result<Reply, NoMemory>
        ensures answers { IfOk result (λ r. IsAnswered self.old (Post name.now) (said_of self.new.project r) self.new) }
        ensures sound { OfAll IsSound self.old → OfAll IsSound self.new }
        ensures settled { OfAll IsSettled self.old → OfAll IsSettled self.new }
    {
        if self.sessions.len() != 0 {
            return Ok(Reply::Refused(Refusal::SessionsOpen));
        }
        reply_to_post(self.tree.post(name))
    }
}
