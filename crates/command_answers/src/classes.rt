ghost use Rattle.std.specs.Prelude.{◌≡◌, ◌⊎◌, ◌<◌, None, true, false, Some, length, MatchOption, IfOk, IfSome, OnErr, unwrap_or};
ghost use Rattle.topology_terms.specs.Lookups.{class_number};
ghost use Rattle.topology_terms.specs.Settled.{IsSettled};
ghost use Rattle.topology_terms.specs.Sound.{IsSound};
ghost use Rattle.line_terms.specs.Commands.{Class, Rule, DropRule};
ghost use Rattle.script_terms.specs.Answer.{Answers};
ghost use Rattle.script_terms.specs.State.{desk_of};
ghost use Rattle.topology_terms.specs.Feature.{no_side};
ghost use Rattle.script_terms.specs.Refusing.{class_of, side_of, row_of, is_nowhere};
ghost use Rattle.reply_text.specs.Replies.{said_of};

use crate::refused::{reply_to_class, reply_to_rule};
use crate::world::World;
use grid_plane::{Name, NoMemory};
use reply_text::{Refusal, Reply};
use rule_core::{RuleRow, Side};
use rule_words::{Kind, RuleKind};
use script_text::Sided;
use topology_terms::Cause;

impl World {
    /// `class NAME KIND`
    pub(crate) fn answer_class(&mut self, name: Name, kind: Kind) -> Result<Reply, NoMemory>
        requires alone { length self.old.aside.others ≡ 0 }
        ensures answers { IfOk result (λ r. Answers (desk_of self.old) (Class name kind) (said_of self.new.project r) (desk_of self.new)) }
        ensures sound { IsSound self.old.project → IsSound self.new.project }
        ensures settled { IsSettled self.old.project → IsSettled self.new.project }
        ensures aside { self.new.aside ≡ self.old.aside }
        ensures err { OnErr result (self.new ≡ self.old) }
    {
        reply_to_class(self.tree.add_class(name, kind))
    }

    // The side that a line names, where the class is there.
    #[tactic(auto, using(crate::proofs::Answering::number_from_1))]
    fn side_of(&self, named: &Sided) -> Option<Side>
        ensures named { MatchOption result (class_number self.now.project named.now.name ≡ None) (λ s. s ≡ side_of self.now.project (Some named.now)) }
        ensures there { IfSome result (λ s. class_number self.now.project named.now.name ≡ Some s.class) }
        ensures from_1 { IfSome result (λ s. 0 < s.class) }
    {
        let class = self.tree.current().store().class_by_name(&named.name)?;
        Some(Side {
            class,
            subtype: named.subtype,
        })
    }

    // The second side that a line names, or none; nothing where it names a class that is not there.
    fn dest_of(&self, named: &Option<Sided>) -> Option<Option<Side>>
        ensures named { MatchOption result (is_nowhere self.now.project named.now ≡ true)
            (λ d. (is_nowhere self.now.project named.now ≡ false) × (unwrap_or d no_side ≡ side_of self.now.project named.now)) }
        ensures from_1 { IfSome result (λ d. IfSome d (λ s. 0 < s.class)) }
    {
        match named {
            Some(named) => {
                let side = self.side_of(named)?;
                Some(Some(side))
            }
            None => Some(None),
        }
    }

    // The row that a line names, where the classes that it names are there.
    fn row_of(&self, kind: RuleKind, origin: &Sided, dest: &Option<Sided>) -> Option<RuleRow>
        ensures { MatchOption result ((class_number self.now.project origin.now.name ≡ None) ⊎ (is_nowhere self.now.project dest.now ≡ true))
            (λ r. (is_nowhere self.now.project dest.now ≡ false) × (r ≡ row_of self.now.project kind origin.now dest.now)) }
    {
        let origin = self.side_of(origin)?;
        let dest = self.dest_of(dest)?;
        Some(RuleRow::new(kind, origin, dest))
    }

    /// `rule WORD ORIGIN [DEST]`
    #[tactic(auto, using(crate::proofs::Answering::no_class))]
    pub(crate) fn answer_rule(
        &mut self,
        kind: RuleKind,
        origin: &Sided,
        dest: &Option<Sided>,
    ) -> Result<Reply, NoMemory>
        requires alone { length self.old.aside.others ≡ 0 }
        ensures answers { IfOk result (λ r. Answers (desk_of self.old) (Rule kind origin.now dest.now) (said_of self.new.project r) (desk_of self.new)) }
        ensures sound { IsSound self.old.project → IsSound self.new.project }
        ensures settled { IsSettled self.old.project → IsSettled self.new.project }
        ensures aside { self.new.aside ≡ self.old.aside }
        ensures err { OnErr result (self.new ≡ self.old) }
    {
        let Some(row) = self.row_of(kind, origin, dest) else {
            return Ok(Reply::Refused(Refusal::Change(Cause::NoClass)));
        };
        reply_to_rule(self.tree.add_rule(row))
    }

    /// `droprule R`
    #[tactic(auto, using(crate::proofs::Answering::rule_dropped, crate::proofs::Answering::no_rule))]
    pub(crate) fn answer_drop_rule(&mut self, number: u16) -> Reply
        requires alone { length self.old.aside.others ≡ 0 }
        ensures answers { Answers (desk_of self.old) (DropRule number) (said_of self.new.project result) (desk_of self.new) }
        ensures sound { IsSound self.old.project → IsSound self.new.project }
        ensures settled { IsSettled self.old.project → IsSettled self.new.project }
        ensures aside { self.new.aside ≡ self.old.aside }
    {
        match self.tree.drop_rule(number) {
            Ok(()) => Reply::Done,
            Err(_) => Reply::Refused(Refusal::Change(Cause::NoRule)),
        }
    }
}
