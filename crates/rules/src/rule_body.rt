ghost use Rattle.std.specs.Prelude.{◌≡◌, IfOk};
ghost use Rattle.topology_terms.specs.Feature.{IsAscending};
ghost use Rattle.topology_terms.specs.Plans.{plan_of};
ghost use Rattle.rule_words.specs.declared.rule_kind.RuleKind as words;
ghost use Rattle.rules.specs.Seen.{cut_seen};

use grid_plane::NoMemory;
use rule_core::{Findings, RuleRow, View, Work};
use rule_words::RuleKind;
use shape::Feature;
use std::alloc::Global;

/// What a rule has of its own: its kind, and how the findings of a subject are made.
pub trait RuleBody {
    ghost kind: { words.RuleKind };

    /// The kind.
    fn kind() -> RuleKind
        ensures { result ≡ kind };

    /// The findings of a subject among those that it is shown, by the sides of the row; the count of judgements stays.
    fn cut(
        alloc: Global,
        row: &RuleRow,
        subject: &Feature,
        view: &View<'_>,
        work: &mut Work,
    ) -> Result<Findings, NoMemory>
        requires { IsAscending view.now }
        ensures cut { IfOk result (λ xs. xs ≡ cut_seen (plan_of kind) row.now view.now subject.now) }
        ensures uncounted { work.new.judged ≡ work.old.judged };
}
