ghost use Rattle.std.specs.Prelude.{◌≡◌, ◌≤◌, ◌+◌, ◌++◌, ℕ, [], ◌∷◌, List, map, IfOk, OnOk, OnErr};
ghost use Rattle.std.specs.List.{list_any};
ghost use Rattle.std.specs.Option.{option_to_list};
ghost use Rattle.plane_terms.specs.Lists.{Every, Paired, how_many};
ghost use Rattle.topology_terms.specs.Feature.{feature_at, IsAscending};
ghost use Rattle.topology_terms.specs.Broken.{judged};
ghost use Rattle.topology_terms.specs.Entry as entries;
ghost use Rattle.topology_terms.specs.Project as projects;
ghost use Rattle.topology_terms.specs.Counts.{raised, judged_of};
ghost use Rattle.validation_laws.specs.Parts.{IsJudging, live_of};
ghost use Rattle.validation_laws.specs.Views.{IsView};
ghost use Rattle.validation.specs.Asked.{viewed_steps, judged_envelopes};
ghost use Rattle.validation.specs.Ends.{looks_beyond};
ghost use Rattle.validation.specs.Parted.{IsPartOf, IsGrown, AreGrown, IsDone, rules_of, entries_of};
ghost use Rattle.validation.specs.Parted as terms;

use crate::judge::judge_shown;
use crate::lists::put_behind;
use crate::near::FeatureIndex;
use crate::shown::view_for;
use error_store::Entry;
use grid_index::Meter;
use grid_plane::{Handles, NoMemory};
use rule_core::{InForce, RuleRow, RuleSet, View, Work};
use shape::Feature;
use std::alloc::Global;
use std::marker::Model;

/// A rule in force, and its new entries: of the subjects so far, one after another.
#[derive(Drop)]
pub struct RulePart {
    rule: InForce,
    entries: Vec<Entry>,
}

impl Model for RulePart {
    ghost use Rattle.validation.specs.Parted as terms;

    ghost Value = { terms.RulePart };

    ghost view = { λ p. record { rule = p.rule; entries = p.entries.items } };
}

impl RulePart {
    // No entry yet.
    fn new(alloc: Global, rule: InForce) -> RulePart
        ensures { result ≡ record { rule = rule; entries = [] } }
    {
        RulePart {
            rule,
            entries: Vec::new(alloc),
        }
    }

    /// The rule.
    pub fn rule(&self) -> &InForce
        ensures { result.now ≡ self.now.rule }
    {
        &self.rule
    }

    /// Its new entries.
    pub fn entries(&self) -> &[Entry]
        ensures { result.now ≡ self.now.entries }
    {
        &self.entries
    }

    /// What the rule speaks of.
    pub(crate) fn row(&self) -> &RuleRow
        ensures { result.now ≡ self.now.rule.row }
    {
        &self.rule.row
    }

    /// Whether the rule judges the feature.
    pub(crate) fn judges(&self, f: &Feature) -> bool
        ensures { result ≡ judged self.now.rule.row f.now }
    {
        self.rule.row.judges(f.class(), f.subtype())
    }

    /// Whether the rule judges the feature by more than what is at its ends.
    pub(crate) fn looks_beyond_ends(&self, f: &Feature) -> bool
        ensures { result ≡ looks_beyond f.now self.now.rule }
    {
        self.judges(f) && !self.rule.row.looks_at_ends()
    }

    // Puts the new entries of the subject last, as it is shown here.
    fn judge<R: RuleSet>(
        &mut self,
        rules: &R,
        alloc: Global,
        view: &View<'_>,
        f: &Feature,
        work: &mut Work,
    ) -> Result<(), NoMemory>
        requires live { feature_at view.now f.now.handle ≡ Some f.now }
        requires near { IsView view.now f.now view.now }
        requires fits { R.meaning.Fits self.old.rule.row view.now }
        ensures grown { OnOk result (IsGrown R.meaning view.now f.now.handle self.old self.new) }
        ensures judged { OnOk result (work.new.judged ≡ raised work.old.judged (how_many (judged self.old.rule.row) (f.now ∷ []))) }
        ensures stopped { OnErr result (work.new.judged ≤ raised work.old.judged (how_many (judged self.old.rule.row) (f.now ∷ []))) }
    {
        judge_shown(rules, alloc, &self.rule, view, f, &mut self.entries, work)
    }
}

// A part for each rule, with no entry yet.
fn empty_parts(alloc: Global, in_force: &[InForce]) -> Result<Vec<RulePart>, NoMemory>
    ensures { IfOk result (λ v. v.items ≡ map (λ (q : projects.InForce). record { rule = q; entries = [] }) in_force.now) }
{
    let mut parts = Vec::with_capacity(alloc, in_force.len())?;
    for rule in in_force {
        parts.push(RulePart::new(alloc, *rule))?;
    }
    Ok(parts)
}

// Whether one of the rules judges the feature.
fn judges_any(parts: &[RulePart], f: &Feature) -> bool
    ensures { result ≡ list_any (λ (p : terms.RulePart). judged p.rule.row f.now) parts.now }
{
    parts.iter().any(|p| p.judges(f))
}

// Each rule judges the subject, as it is shown here.
fn judge_shown_by_each<R: RuleSet>(
    rules: &R,
    alloc: Global,
    parts: &mut [RulePart],
    view: &View<'_>,
    f: &Feature,
    work: &mut Work,
) -> Result<(), NoMemory>
    requires live { feature_at view.now f.now.handle ≡ Some f.now }
    requires near { IsView view.now f.now view.now }
    requires fits { Every (λ (q : projects.InForce). R.meaning.Fits q.row view.now) (rules_of parts.old) }
    ensures grown { OnOk result (AreGrown R.meaning view.now f.now.handle parts.old parts.new) }
    ensures judged { OnOk result (work.new.judged ≡ raised work.old.judged (judged_of (rules_of parts.old) (f.now ∷ []))) }
    ensures stopped { OnErr result (work.new.judged ≤ raised work.old.judged (judged_of (rules_of parts.old) (f.now ∷ []))) }
{
    for part in parts.iter_mut() {
        part.judge(rules, alloc, view, f, work)?;
    }
    Ok(())
}

// Each rule judges the live feature. What lies near it, or at its ends, is looked up once, and only where some rule judges it; the
// meter counts the steps.
fn judge_live_by_each<R: RuleSet, M: Meter>(
    rules: &R,
    alloc: Global,
    parts: &mut [RulePart],
    features: &FeatureIndex<'_, M>,
    f: &Feature,
    work: &mut Work,
    meter: &mut M,
) -> Result<(), NoMemory>
    requires ascending { IsAscending features.now.features }
    requires live { feature_at features.now.features f.now.handle ≡ Some f.now }
    requires fits { Every (λ (q : projects.InForce). R.meaning.Fits q.row features.now.features) (rules_of parts.old) }
    ensures grown { OnOk result (AreGrown R.meaning features.now.features f.now.handle parts.old parts.new) }
    ensures judged { OnOk result (work.new.judged ≡ raised work.old.judged (judged_of (rules_of parts.old) (f.now ∷ []))) }
    ensures stopped { OnErr result (work.new.judged ≤ raised work.old.judged (judged_of (rules_of parts.old) (f.now ∷ []))) }
    ensures rises { M.taken meter.old ≤ M.taken meter.new }
    ensures steps { (s : ℕ) → M.taken meter.new ≤ M.taken meter.old + viewed_steps s (judged_envelopes (rules_of parts.old) (f.now ∷ [])) features.now.placed }
{
    if !judges_any(parts, f) {
        return Ok(());
    }
    let view = view_for(alloc, parts, features, f, work, meter)?;
    judge_shown_by_each(rules, alloc, parts, &view, f, work)
}

// Each rule judges the subject; where it is not live, none has an entry more.
fn judge_by_each<R: RuleSet, M: Meter>(
    rules: &R,
    alloc: Global,
    parts: &mut [RulePart],
    features: &FeatureIndex<'_, M>,
    subject: u32,
    work: &mut Work,
    meter: &mut M,
) -> Result<(), NoMemory>
    requires ascending { IsAscending features.now.features }
    requires fits { Every (λ (q : projects.InForce). R.meaning.Fits q.row features.now.features) (rules_of parts.old) }
    ensures grown { OnOk result (AreGrown R.meaning features.now.features subject parts.old parts.new) }
    ensures judged { OnOk result (work.new.judged ≡ raised work.old.judged (judged_of (rules_of parts.old) (option_to_list (feature_at features.now.features subject)))) }
    ensures stopped { OnErr result (work.new.judged ≤ raised work.old.judged (judged_of (rules_of parts.old) (option_to_list (feature_at features.now.features subject)))) }
    ensures rises { M.taken meter.old ≤ M.taken meter.new }
    ensures steps { (s : ℕ) → M.taken meter.new ≤ M.taken meter.old + viewed_steps s (judged_envelopes (rules_of parts.old) (option_to_list (feature_at features.now.features subject))) features.now.placed }
{
    match features.find(subject) {
        Some(f) => judge_live_by_each(rules, alloc, parts, features, f, work, meter),
        None => Ok(()),
    }
}

/// The new entries of the subject under each of these rules, in their order; where it is not live there are none. What lies near
/// it is looked up once; the meter counts the steps. The count of judgements rises by one for each rule that judges the subject, where it is live. After an
/// `Err`, out of memory, it has risen by no more.
pub fn judge_subject<R: RuleSet, M: Meter>(
    rules: &R,
    alloc: Global,
    in_force: &[InForce],
    features: &FeatureIndex<'_, M>,
    subject: u32,
    work: &mut Work,
    meter: &mut M,
) -> Result<Vec<RulePart>, NoMemory>
    requires ascending { IsAscending features.now.features }
    requires fits { Every (λ (q : projects.InForce). R.meaning.Fits q.row features.now.features) in_force.now }
    ensures parts { IfOk result (λ v. Paired (IsPartOf R.meaning features.now.features subject) in_force.now v.items) }
    ensures judged { IfOk result (λ _. work.new.judged ≡ raised work.old.judged (judged_of in_force.now (option_to_list (feature_at features.now.features subject)))) }
    ensures stopped { OnErr result (work.new.judged ≤ raised work.old.judged (judged_of in_force.now (option_to_list (feature_at features.now.features subject)))) }
    ensures rises { M.taken meter.old ≤ M.taken meter.new }
    ensures steps { (s : ℕ) → M.taken meter.new ≤ M.taken meter.old + viewed_steps s (judged_envelopes in_force.now (option_to_list (feature_at features.now.features subject))) features.now.placed }
{
    let mut parts = empty_parts(alloc, in_force)?;
    judge_by_each(rules, alloc, &mut parts, features, subject, work, meter)?;
    Ok(parts)
}

// Each rule judges each of the selected subjects, of which there was no entry yet.
fn judge_selected<R: RuleSet, M: Meter>(
    rules: &R,
    alloc: Global,
    parts: &mut [RulePart],
    features: &FeatureIndex<'_, M>,
    selected: &Handles,
    work: &mut Work,
    meter: &mut M,
) -> Result<(), NoMemory>
    requires ascending { IsAscending features.now.features }
    requires fits { Every (λ (q : projects.InForce). R.meaning.Fits q.row features.now.features) (rules_of parts.old) }
    requires new { Every (IsDone R.meaning features.now.features []) parts.old }
    ensures done { OnOk result (Every (IsDone R.meaning features.now.features selected.now) parts.new) }
    ensures rules { OnOk result (rules_of parts.new ≡ rules_of parts.old) }
    ensures judged { OnOk result (work.new.judged ≡ raised work.old.judged (judged_of (rules_of parts.old) (live_of features.now.features selected.now))) }
    ensures stopped { OnErr result (work.new.judged ≤ raised work.old.judged (judged_of (rules_of parts.old) (live_of features.now.features selected.now))) }
    ensures rises { M.taken meter.old ≤ M.taken meter.new }
    ensures steps { (s : ℕ) → M.taken meter.new ≤ M.taken meter.old + viewed_steps s (judged_envelopes (rules_of parts.old) (live_of features.now.features selected.now)) features.now.placed }
{
    for i in 0..selected.len() {
        let subject = selected.at(i);
        judge_by_each(rules, alloc, parts, features, subject, work, meter)?;
    }
    Ok(())
}

// The entries of each rule, in the order of the rules.
fn entries_in(alloc: Global, parts: Vec<RulePart>) -> Result<Vec<Entry>, NoMemory>
    ensures { IfOk result (λ es. es.items ≡ entries_of parts.items) }
{
    let mut all = Vec::new(alloc);
    for part in parts {
        put_behind(&mut all, part.entries)?;
    }
    Ok(all)
}

/// The new entries of the selected subjects: rule by rule, subject by subject, in the order of partners. It goes subject by
/// subject, so that what lies near one is looked up once for all rules; the meter counts the steps.
pub fn judge_all<R: RuleSet, M: Meter>(
    rules: &R,
    alloc: Global,
    in_force: &[InForce],
    features: &FeatureIndex<'_, M>,
    selected: &Handles,
    work: &mut Work,
    meter: &mut M,
) -> Result<Vec<Entry>, NoMemory>
    requires ascending { IsAscending features.now.features }
    requires fits { Every (λ (q : projects.InForce). R.meaning.Fits q.row features.now.features) in_force.now }
    ensures judging { IfOk result (λ es. IsJudging R.meaning features.now.features in_force.now selected.now es.items) }
    ensures judged { IfOk result (λ _. work.new.judged ≡ raised work.old.judged (judged_of in_force.now (live_of features.now.features selected.now))) }
    ensures stopped { OnErr result (work.new.judged ≤ raised work.old.judged (judged_of in_force.now (live_of features.now.features selected.now))) }
    ensures rises { M.taken meter.old ≤ M.taken meter.new }
    ensures steps { (s : ℕ) → M.taken meter.new ≤ M.taken meter.old + viewed_steps s (judged_envelopes in_force.now (live_of features.now.features selected.now)) features.now.placed }
{
    if selected.len() == 0 {
        return Ok(Vec::new(alloc));
    }
    let mut parts = empty_parts(alloc, in_force)?;
    judge_selected(rules, alloc, &mut parts, features, selected, work, meter)?;
    entries_in(alloc, parts)
}
