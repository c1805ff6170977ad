ghost use Rattle.std.specs.Prelude.{◌≡◌, ◌≤◌, ◌++◌, [], ◌∷◌, List, true, false, Some, IfOk, OnOk, OnErr};
ghost use Rattle.plane_terms.specs.Lists.{Every, Paired, how_many};
ghost use Rattle.plane_terms.specs.Cell.{IsLeastFrame};
ghost use Rattle.topology_terms.specs.Feature.{feature_at, env};
ghost use Rattle.topology_terms.specs.Broken.{judged};
ghost use Rattle.topology_terms.specs.Entry as terms;
ghost use Rattle.validation_laws.specs.Parts.{IsNewEntry, IsSubjectPart};
ghost use Rattle.validation_laws.specs.Views.{IsView};
ghost use Rattle.validation_laws.specs.Framed.{IsFramable};
ghost use Rattle.topology_terms.specs.Counts.{raised};

use crate::frame::frame_of;
use error_store::{Entry, Key};
use grid_plane::{NoMemory, Rect};
use rule_core::{Finding, InForce, RuleSet, View, Work};
use shape::Feature;
use std::alloc::Global;
use topology_terms::Extent;

// The least frame of its cells, or the envelope of the subject that breaks the rule as a whole.
fn frame_for(alloc: Global, f: &Feature, x: &Finding) -> Rect
    requires { IsFramable x.now }
    ensures least { x.now.whole ≡ false → IsLeastFrame result x.now.cells }
    ensures envelope { x.now.whole ≡ true → result ≡ env f.now }
{
    match x.extent {
        Extent::Whole => f.shape().env(),
        Extent::Cells => frame_of(alloc, &x.cells),
    }
}

fn entry_of(alloc: Global, rule: u16, f: &Feature, x: Finding) -> Result<Entry, NoMemory>
    requires { IsFramable x }
    ensures { IfOk result (IsNewEntry rule f.now.handle f.now x) }
{
    let frame = frame_for(alloc, f, &x);
    let key = Key {
        rule,
        subject: f.handle(),
        other: x.other,
    };
    Entry::new(alloc, key, x.extent, false, frame, x.cells)
}

// Puts an entry for each finding.
fn add_findings(
    alloc: Global,
    rule: u16,
    f: &Feature,
    findings: Vec<Finding>,
    out: &mut Vec<Entry>,
) -> Result<(), NoMemory>
    requires { Every IsFramable findings.items }
    ensures { OnOk result ((es : List terms.Entry) × (out.new.items ≡ out.old.items ++ es) × Paired (IsNewEntry rule f.now.handle f.now) findings.items es) }
{
    for x in findings {
        let entry = entry_of(alloc, rule, f, x)?;
        out.push(entry)?;
    }
    Ok(())
}

/// Puts the new entries of a live feature, where the rule judges it, as it is shown here.
pub(crate) fn judge_shown<R: RuleSet>(
    rules: &R,
    alloc: Global,
    rule: &InForce,
    view: &View<'_>,
    f: &Feature,
    out: &mut Vec<Entry>,
    work: &mut Work,
) -> Result<(), NoMemory>
    requires live { feature_at view.now f.now.handle ≡ Some f.now }
    requires near { IsView view.now f.now view.now }
    requires fits { R.meaning.Fits rule.now.row view.now }
    ensures part { OnOk result ((es : List terms.Entry) × (out.new.items ≡ out.old.items ++ es) × IsSubjectPart R.meaning view.now rule.now.number rule.now.row f.now.handle es) }
    ensures judged { OnOk result (work.new.judged ≡ raised work.old.judged (how_many (judged rule.now.row) (f.now ∷ []))) }
    ensures stopped { OnErr result (work.new.judged ≤ raised work.old.judged (how_many (judged rule.now.row) (f.now ∷ []))) }
{
    f.shape().env().corner_law();
    if !rule.row.judges(f.class(), f.subtype()) {
        return Ok(());
    }
    let findings = rules.judge_row(alloc, &rule.row, view, f.handle(), work)?;
    add_findings(alloc, rule.number, f, findings.into_list(), out)
}
