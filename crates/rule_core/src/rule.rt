ghost use Rattle.std.specs.Prelude.{◌≡◌, IfOk};
ghost use Rattle.topology_terms.specs.Broken.{Row};
ghost use Rattle.topology_terms.specs.Meaning.{Meaning, Laws, CutsRight, AreRight};
ghost use Rattle.validation_laws.specs.Views.{ViewLaws};
ghost use Rattle.topology_terms.specs.Counts.{raised};
ghost use Rattle.rule_core.specs.Shown.{IsShown};

use crate::findings::Findings;
use crate::row::RuleRow;
use crate::view::View;
use crate::work::Work;
use grid_plane::NoMemory;
use std::alloc::Global;

/// A rule of one kind, for the classes of its row.
///
/// Its meaning says, for any two sides, at which points a subject breaks it and with which partner, whether a subject breaks
/// it as a whole, and into which findings that is cut. The laws say on which features that depends.
pub trait Rule {
    ghost meaning: { Meaning };

    ghost row_of: { Self → Row };

    /// The row that it was made for.
    fn row(&self) -> RuleRow
        ensures { result ≡ row_of self.now };

    /// What is found for the subject; the count of judgements stays.
    fn seek(
        &self,
        alloc: Global,
        view: &View<'_>,
        subject: u32,
        work: &mut Work,
    ) -> Result<Findings, NoMemory>
        requires shown { IsShown (row_of self.now) view.now subject }
        requires fits { meaning.Fits (row_of self.now) view.now }
        ensures cut { IfOk result (λ xs. meaning.IsCutting (row_of self.now) view.now subject xs) }
        ensures uncounted { work.new.judged ≡ work.old.judged };

    ghost laws: { Laws meaning };

    ghost right: { CutsRight meaning };

    ghost views: { ViewLaws meaning };
}

/// Judges the subject: the findings are the rule's cutting of what is broken, and say exactly what is. The count of judgements
/// rises by one, also where memory runs out.
pub fn judge<R: Rule>(
    rule: &R,
    alloc: Global,
    view: &View<'_>,
    subject: u32,
    work: &mut Work,
) -> Result<Findings, NoMemory>
    requires shown { IsShown (R.row_of rule.now) view.now subject }
    requires fits { R.meaning.Fits (R.row_of rule.now) view.now }
    ensures cut { IfOk result (λ xs. R.meaning.IsCutting (R.row_of rule.now) view.now subject xs) }
    ensures right { IfOk result (λ xs. AreRight R.meaning (R.row_of rule.now) view.now subject xs) }
    ensures judged { work.new.judged ≡ raised work.old.judged 1 }
{
    work.raise();
    rule.seek(alloc, view, subject, work)
}

/// All rules: a row is judged by the rule of its kind.
pub trait RuleSet {
    ghost meaning: { Meaning };

    /// What is found for the subject; the count of judgements rises by one.
    fn judge_row(
        &self,
        alloc: Global,
        row: &RuleRow,
        view: &View<'_>,
        subject: u32,
        work: &mut Work,
    ) -> Result<Findings, NoMemory>
        requires shown { IsShown row.now view.now subject }
        requires fits { meaning.Fits row.now view.now }
        ensures cut { IfOk result (λ xs. meaning.IsCutting row.now view.now subject xs) }
        ensures judged { work.new.judged ≡ raised work.old.judged 1 };

    ghost laws: { Laws meaning };

    ghost right: { CutsRight meaning };

    ghost views: { ViewLaws meaning };
}
