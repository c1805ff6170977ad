ghost use Rattle.std.specs.Prelude.{◌≡◌, ◌≤◌, ◌+◌, ℕ, List, [], filter, Some, IfOk, OnOk, OnErr};
ghost use Rattle.plane_terms.specs.Lists.{IsThose};
ghost use Rattle.plane_terms.specs.Rectangle.{Rectangle, rects_meet};
ghost use Rattle.plane_terms.specs.Dirt.{cut_dirt};
ghost use Rattle.topology_terms.specs.Feature as features_of;
ghost use Rattle.topology_terms.specs.Broken.{Row};
ghost use Rattle.topology_terms.specs.Entry as entries_of;
ghost use Rattle.topology_terms.specs.Project.{Project, IsProject, rule_at};
ghost use Rattle.topology_terms.specs.Sound.{IsSoundUnder};
ghost use Rattle.topology_terms.specs.Settled.{IsSettledUnder, IsValidatedBy};
ghost use Rattle.topology_terms.specs.Changes.{IsSelected};
ghost use Rattle.validation_laws.specs.Parts.{IsRising, IsJudging, live_of};
ghost use Rattle.topology_terms.specs.Counts.{raised, judged_of};
ghost use Rattle.validation.specs.Asked.{IsAskedFor, dirty_parts, viewed_steps, judged_envelopes};
ghost use Rattle.validation.specs.Projects.{HasParts, with_parts};

use crate::parts::judge_all;
use crate::ruled::RuledFeatures;
use crate::selection::select;
use dirty_area::Dirt;
use error_store::{Entry, Errors};
use grid_index::Meter;
use grid_plane::{Handles, NoMemory, Rect};
use rule_core::{RuleSet, Work};
use std::alloc::Global;
use step_count::Count;

// The new entries of the selected subjects, in the order of their keys.
fn rejudge<R: RuleSet, M: Meter>(
    ruled: &RuledFeatures<'_, R, M>,
    selected: &Handles,
    work: &mut Work,
    meter: &mut M,
) -> Result<Vec<Entry>, NoMemory>
    requires fits { (n : ℕ) (row : Row) → rule_at ruled.now.in_force n ≡ Some row → R.meaning.Fits row ruled.now.features }
    requires selected { IsRising selected.now }
    ensures judging { IfOk result (λ es. IsJudging R.meaning ruled.now.features ruled.now.in_force selected.now es.items) }
    ensures ascending { IfOk result (λ es. entries_of.IsAscending es.items) }
    ensures judged { IfOk result (λ _. work.new.judged ≡ raised work.old.judged (judged_of ruled.now.in_force (live_of ruled.now.features selected.now))) }
    ensures stopped { OnErr result (work.new.judged ≤ raised work.old.judged (judged_of ruled.now.in_force (live_of ruled.now.features selected.now))) }
    ensures rises { M.taken meter.old ≤ M.taken meter.new }
    ensures steps { (s : ℕ) → M.taken meter.new ≤ M.taken meter.old + viewed_steps s (judged_envelopes ruled.now.in_force (live_of ruled.now.features selected.now)) ruled.now.placed }
{
    ruled.order_law();
    let alloc = ruled.alloc;
    let rules = ruled.rules;
    let in_force = ruled.in_force();
    let indexed = ruled.indexed();
    judge_all(rules, alloc, in_force, &indexed, selected, work, meter)
}

// The entries of the subjects that the window and these rectangles of the dirt select give way to the findings.
fn renew<R: RuleSet, M: Meter>(
    ruled: &RuledFeatures<'_, R, M>,
    errors: &mut Errors,
    met: &[Rect],
    window: &Rect,
    work: &mut Work,
    feature_meter: &mut M,
    error_meter: &mut Count,
) -> Result<(), NoMemory>
    requires { (n : ℕ) (row : Row) → rule_at ruled.now.in_force n ≡ Some row → R.meaning.Fits row ruled.now.features }
    ensures step { OnOk result ((p : Project) (d new : List Rectangle) → HasParts p ruled.now d errors.old → met.now ≡ filter (λ r. rects_meet r window.now) d → new ≡ cut_dirt d window.now → IsValidatedBy R.meaning window.now p (with_parts p new errors.new)) }
    ensures judged { OnOk result ((p : Project) (d : List Rectangle) → HasParts p ruled.now d errors.old → met.now ≡ filter (λ r. rects_meet r window.now) d → (fs : List features_of.Feature) × IsThose (λ (f : features_of.Feature). IsSelected p window.now f.handle) ruled.now.features fs × (work.new.judged ≡ raised work.old.judged (judged_of ruled.now.in_force fs))) }
    ensures stopped { OnErr result ((p : Project) (d : List Rectangle) → HasParts p ruled.now d errors.old → met.now ≡ filter (λ r. rects_meet r window.now) d → (fs : List features_of.Feature) → IsThose (λ (f : features_of.Feature). IsSelected p window.now f.handle) ruled.now.features fs → work.new.judged ≤ raised work.old.judged (judged_of ruled.now.in_force fs)) }
    ensures ordered { OnOk result (entries_of.IsAscending errors.new) }
    ensures errors_kept { OnErr result (errors.new ≡ errors.old) }
    ensures asked { (p : Project) (d : List Rectangle) → HasParts p ruled.now d errors.old → met.now ≡ filter (λ r. rects_meet r window.now) d → (fs : List features_of.Feature) → IsThose (λ (f : features_of.Feature). IsSelected p window.now f.handle) ruled.now.features fs → IsAskedFor ruled.now (dirty_parts d window.now) fs (M.taken feature_meter.old) (M.taken feature_meter.new) }
    ensures rises { M.taken feature_meter.old ≤ M.taken feature_meter.new }
    ensures error_rises { error_meter.old ≤ error_meter.new }
{
    ruled.order_law();
    let selected = select(ruled, errors, met, window, feature_meter, error_meter)?;
    let fresh = rejudge(ruled, &selected, work, feature_meter)?;
    errors.replace(ruled.alloc, &selected, fresh)
}

/// Validates the window: every rule in force judges each live feature of its subjects that the window and the dirt select;
/// the entries of the selected subjects give way to the findings, and the window is cut out of the dirt.
///
/// The count of judgements rises by exactly the number of pairs of a rule in force and a selected feature that it judges.
/// After an `Err`, out of memory, it has risen by no more, and errors and dirt are as they were: all growth comes before the
/// first change.
///
/// The first meter counts the steps of its questions to the index of the features, and the second those to that of the errors' frames.
/// Neither count falls, whatever is answered. Features are asked for by the dirty parts of the window, and then by the envelope of each
/// selected one that a rule judges, or by its ends, once; and the first count rises by no more than questions about these parts and
/// envelopes allow, and one step for each of these features.
pub fn validate_counted<R: RuleSet, M: Meter>(
    ruled: &RuledFeatures<'_, R, M>,
    errors: &mut Errors,
    dirt: &mut Dirt,
    window: &Rect,
    work: &mut Work,
    feature_meter: &mut M,
    error_meter: &mut Count,
) -> Result<(), NoMemory>
    requires { (n : ℕ) (row : Row) → rule_at ruled.now.in_force n ≡ Some row → R.meaning.Fits row ruled.now.features }
    ensures step { OnOk result ((p : Project) → HasParts p ruled.now dirt.old errors.old → IsValidatedBy R.meaning window.now p (with_parts p dirt.new errors.new)) }
    ensures valid { OnOk result ((p : Project) → HasParts p ruled.now dirt.old errors.old → IsProject R.meaning p → IsProject R.meaning (with_parts p dirt.new errors.new)) }
    ensures sound { OnOk result ((p : Project) → HasParts p ruled.now dirt.old errors.old → IsProject R.meaning p → IsSoundUnder R.meaning p → IsSoundUnder R.meaning (with_parts p dirt.new errors.new)) }
    ensures settled { OnOk result ((p : Project) → HasParts p ruled.now dirt.old errors.old → IsProject R.meaning p → IsSettledUnder R.meaning p → IsSettledUnder R.meaning (with_parts p dirt.new errors.new)) }
    ensures judged { OnOk result ((p : Project) → HasParts p ruled.now dirt.old errors.old → (fs : List features_of.Feature) × IsThose (λ (f : features_of.Feature). IsSelected p window.now f.handle) ruled.now.features fs × (work.new.judged ≡ raised work.old.judged (judged_of ruled.now.in_force fs))) }
    ensures stopped { OnErr result ((p : Project) → HasParts p ruled.now dirt.old errors.old → (fs : List features_of.Feature) → IsThose (λ (f : features_of.Feature). IsSelected p window.now f.handle) ruled.now.features fs → work.new.judged ≤ raised work.old.judged (judged_of ruled.now.in_force fs)) }
    ensures ordered { OnOk result (entries_of.IsAscending errors.new) }
    ensures errors_kept { OnErr result (errors.new ≡ errors.old) }
    ensures dirt_kept { OnErr result (dirt.new ≡ dirt.old) }
    ensures asked { (p : Project) → HasParts p ruled.now dirt.old errors.old → (fs : List features_of.Feature) → IsThose (λ (f : features_of.Feature). IsSelected p window.now f.handle) ruled.now.features fs → IsAskedFor ruled.now (dirty_parts dirt.old window.now) fs (M.taken feature_meter.old) (M.taken feature_meter.new) }
    ensures rises { M.taken feature_meter.old ≤ M.taken feature_meter.new }
    ensures error_rises { error_meter.old ≤ error_meter.new }
{
    ruled.order_law();
    let cut = dirt.cut(ruled.alloc, window)?;
    match renew(
        ruled,
        errors,
        cut.met(),
        window,
        work,
        feature_meter,
        error_meter,
    ) {
        Ok(()) => {
            *dirt = cut.into_left();
            Ok(())
        }
        Err(e) => {
            *dirt = cut.into_whole();
            Err(e)
        }
    }
}
