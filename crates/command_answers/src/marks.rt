ghost use Rattle.std.specs.Prelude.{◌≡◌};
ghost use Rattle.topology_terms.specs.Settled.{IsSettled};
ghost use Rattle.topology_terms.specs.Sound.{IsSound};
ghost use Rattle.line_terms.specs.Commands.{Mark, Unmark};
ghost use Rattle.script_terms.specs.Answer.{Answers};
ghost use Rattle.script_terms.specs.State.{desk_of};
ghost use Rattle.reply_text.specs.Replies.{said_of};

use crate::refused::reply_to_mark;
use crate::world::World;
use reply_text::Reply;
use topo_core::Key;

impl World {
    /// `mark R H H2`
    pub(crate) fn answer_mark(&mut self, key: Key) -> Reply
        ensures answers { Answers (desk_of self.old) (Mark key.rule key.subject key.other) (said_of self.new.project result) (desk_of self.new) }
        ensures sound { IsSound self.old.project → IsSound self.new.project }
        ensures settled { IsSettled self.old.project → IsSettled self.new.project }
        ensures aside { self.new.aside ≡ self.old.aside }
    {
        reply_to_mark(self.tree.mark(key, true))
    }

    /// `unmark R H H2`
    pub(crate) fn answer_unmark(&mut self, key: Key) -> Reply
        ensures answers { Answers (desk_of self.old) (Unmark key.rule key.subject key.other) (said_of self.new.project result) (desk_of self.new) }
        ensures sound { IsSound self.old.project → IsSound self.new.project }
        ensures settled { IsSettled self.old.project → IsSettled self.new.project }
        ensures aside { self.new.aside ≡ self.old.aside }
    {
        reply_to_mark(self.tree.mark(key, false))
    }
}
