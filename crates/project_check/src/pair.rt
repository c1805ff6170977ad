ghost use Rattle.std.specs.Prelude.{◌≡◌, ◌<◌, length, IfSome, IfOk};
ghost use Rattle.std.specs.Option.{option_map};
ghost use Rattle.plane_terms.specs.Lists.{Every};
ghost use Rattle.topology_terms.specs.Feature.{feature_at, env};
ghost use Rattle.topology_terms.specs.Feature as features_of;
ghost use Rattle.topology_terms.specs.Entry as entries_of;
ghost use Rattle.topology_terms.specs.Project as projects;
ghost use Rattle.topology_terms.specs.Project.{Project};
ghost use Rattle.error_store.specs.Pairs.{IsOf};
ghost use Rattle.project_check.specs.Subjects.{HasLists, IsCompared, IsFirstRule};

use dirty_area::Dirt;
use error_store::Errors;
use grid_plane::{NoMemory, Rect};
use rule_core::{InForce, RuleSet, Work};
use sound_check::is_sound_pair;
use std::alloc::Global;
use step_count::Count;
use validation::{FeatureIndex, RulePart, judge_subject};

// The envelope of the live feature of this handle.
fn envelope_of(features: &FeatureIndex<'_, Count>, handle: u32) -> Option<Rect>
    requires { features_of.IsAscending features.now.features }
    ensures { result ≡ option_map env (feature_at features.now.features handle) }
{
    match features.find(handle) {
        Some(f) => Some(f.shape().env()),
        None => None,
    }
}

// Whether the stored entries of the rule and the subject are sound beside these, which are found afresh.
fn is_sound_part(
    alloc: Global,
    fresh: &RulePart,
    subject: u32,
    envelope: Option<Rect>,
    errors: &Errors,
    dirt: &Dirt,
) -> Result<bool, NoMemory>
    requires fresh { entries_of.IsAscending fresh.now.entries }
    requires own { Every (IsOf fresh.now.rule.number subject) fresh.now.entries }
    ensures { IfOk result (IsCompared dirt.now envelope errors.now fresh.now subject) }
{
    let rule = fresh.rule().number;
    let found = fresh.entries();
    let stored = errors.of_pair(rule, subject);
    is_sound_pair(alloc, rule, subject, envelope, found, stored, dirt)
}

/// The place of the first of these rules by which the project is not sound at the subject, live or not: each judges the subject
/// afresh, and what is found is compared with its stored entries. `None` where it is sound by all. An `Err` means out of memory.
pub fn first_rule<R: RuleSet>(
    rules: &R,
    alloc: Global,
    in_force: &[InForce],
    features: &FeatureIndex<'_, Count>,
    errors: &Errors,
    dirt: &Dirt,
    subject: u32,
    work: &mut Work,
) -> Result<Option<usize>, NoMemory>
    requires features { features_of.IsAscending features.now.features }
    requires fits { Every (λ (q : projects.InForce). R.meaning.Fits q.row features.now.features) in_force.now }
    ensures within { IfOk result (λ place. IfSome place (λ k. k < length in_force.now)) }
    ensures first { IfOk result (λ place. (p : Project) → HasLists p features.now.features dirt.now errors.now → IsFirstRule R.meaning p in_force.now subject place) }
{
    let meter = &mut Count::new();
    let fresh = judge_subject(rules, alloc, in_force, features, subject, work, meter)?;
    let envelope = envelope_of(features, subject);
    for i in 0..fresh.len() {
        if !is_sound_part(alloc, &fresh[i], subject, envelope, errors, dirt)? {
            return Ok(Some(i));
        }
    }
    Ok(None)
}
