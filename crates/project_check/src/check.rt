ghost use Rattle.std.specs.Prelude.{◌≡◌, ℕ, Some, IfOk};
ghost use Rattle.topology_terms.specs.Feature as features_of;
ghost use Rattle.plane_terms.specs.Lists.{Every};
ghost use Rattle.topology_terms.specs.Broken.{Row};
ghost use Rattle.topology_terms.specs.Project as projects;
ghost use Rattle.topology_terms.specs.Project.{Project, AreAscending, rule_at};
ghost use Rattle.validation_laws.specs.Parts.{IsRising};
ghost use Rattle.validation.specs.Placed.{ArePlaced};
ghost use Rattle.project_check.specs.Subjects.{HasLists, HasSubjects};
ghost use Rattle.validation.specs.Projects.{HasParts};
ghost use Rattle.project_check.specs.Checked.{IsChecked};

use crate::pair::first_rule;
use crate::subjects::subjects_of;
use dirty_area::Dirt;
use error_store::Errors;
use feature_store::Features;
use grid_index::Index;
use grid_plane::NoMemory;
use rule_core::{InForce, RuleSet, Work};
use std::alloc::Global;
use step_count::Count;
use validation::FeatureIndex;

/// A rule in force, by its number, and a subject at which the project is not sound: the handle of a feature, live or not.
#[derive(Clone, Copy, Debug, PartialEq, Eq)]
pub struct Unsound {
    pub rule: u16,
    pub subject: u32,
}

// Of these subjects and rules the first rule, and then the first subject, at which the project is not sound. Where it is not
// sound at a subject, only the rules before go on.
fn first_unsound<R: RuleSet>(
    rules: &R,
    alloc: Global,
    in_force: &[InForce],
    features: &FeatureIndex<'_, Count>,
    errors: &Errors,
    dirt: &Dirt,
    subjects: &[u32],
    work: &mut Work,
) -> Result<Option<Unsound>, NoMemory>
    requires rules { AreAscending in_force.now }
    requires features { features_of.IsAscending features.now.features }
    requires fits { Every (λ (q : projects.InForce). R.meaning.Fits q.row features.now.features) in_force.now }
    requires rising { IsRising subjects.now }
    requires all { HasSubjects features.now.features errors.now subjects.now }
    ensures { IfOk result (λ found. (p : Project) → HasLists p features.now.features dirt.now errors.now → p.rules ≡ in_force.now → IsChecked R.meaning p found) }
{
    let mut left = in_force.len();
    let mut found = None;
    for subject in subjects {
        let earlier = &in_force[..left];
        let place = first_rule(
            rules, alloc, earlier, features, errors, dirt, *subject, work,
        )?;
        let Some(place) = place else {
            continue;
        };
        let rule = &in_force[place];
        found = Some(Unsound {
            rule: rule.number,
            subject: *subject,
        });
        left = place;
    }
    Ok(found)
}

/// `None` where the project of these rules in force, features, errors and dirt is sound; else the first rule and subject at
/// which it is not, in order of rules, then of subjects. Each live feature stands in the index, which says where to look for
/// features; other pairs that stand there change nothing. An `Err` means out of memory.
///
/// Every number may be a subject: at one that is neither a live feature nor has an error, a project is sound. It goes subject by
/// subject, so that what lies near one is looked up once for all rules.
pub fn check_project<R: RuleSet>(
    rules: &R,
    alloc: Global,
    in_force: &[InForce],
    features: &Features<'_>,
    index: &Index<Count>,
    errors: &Errors,
    dirt: &Dirt,
) -> Result<Option<Unsound>, NoMemory>
    requires rules { AreAscending in_force.now }
    requires features { features_of.IsAscending features.now }
    requires fits { (n : ℕ) (row : Row) → rule_at in_force.now n ≡ Some row → R.meaning.Fits row features.now }
    requires placed { ArePlaced index.now features.now }
    ensures { IfOk result (λ found. (p : Project) → HasParts p (record { in_force = in_force.now; features = features.now; placed = index.now }) dirt.now errors.now → IsChecked R.meaning p found) }
{
    let subjects = subjects_of(alloc, features, errors)?;
    let indexed = FeatureIndex::of(features, index);
    let mut work = Work::new();
    first_unsound(
        rules, alloc, in_force, &indexed, errors, dirt, &subjects, &mut work,
    )
}
