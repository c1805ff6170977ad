ghost use Rattle.std.specs.Prelude.{◌≡◌, ◌&&◌, Some, None, MatchOption, not, filter, ◌==◌, IfOk, OnOk, ◌++◌, ◌<◌};
ghost use Rattle.std.specs.Option.{option_to_list};
ghost use Rattle.std.specs.List.{list_any};
ghost use Rattle.plane_terms.specs.Lists.{Every};
ghost use Rattle.feature_store.specs.Slots.{feature_in, filled};
ghost use Rattle.topology_terms.specs.Feature as terms;
ghost use Rattle.topology_terms.specs.Project.{AreAscending, rule_at};
ghost use Rattle.topology_terms.specs.Together.{of_side};
ghost use Rattle.topology_terms.specs.Plans.{none_inside, is_round, has_side_at};
ghost use Rattle.fix_terms.specs.Snap.{holds_other};

use feature_store::Slot;
use grid_plane::{GridPoint, NoMemory};
use rule_core::{InForce, RuleRow, Side, View};
use rule_loops::{AtPlace, SideThere, contains};
use shape::Feature;
use std::alloc::Global;

/// The rule in force of this number.
#[tactic(auto, unfolding(topology_terms::specs::Project::rule_at))]
pub(crate) fn rule_of(rules: &[InForce], number: u16) -> Option<RuleRow>
    requires { AreAscending rules.now }
    ensures { MatchOption result (rule_at rules.now number ≡ None) (λ row. rule_at rules.now number ≡ Some row) }
{
    for rule in rules {
        if rule.number == number {
            return Some(rule.row);
        }
    }
    None
}

// Puts the feature in the slot last, where it is filled; its handle is above all others.
fn push_seen<'a>(view: &mut View<'a>, slot: &'a Slot) -> Result<(), NoMemory>
    requires { (f : terms.Feature) → feature_in slot.now ≡ Some f → Every (λ (g : terms.Feature). g.handle < f.handle) view.old }
    ensures { OnOk result (view.new ≡ view.old ++ option_to_list (feature_in slot.now)) }
{
    if let Some(feature) = slot.feature() {
        view.push(feature)?;
    }
    Ok(())
}

/// The features in these slots, to be looked at.
pub(crate) fn view_of<'a>(alloc: Global, slots: &'a [Slot]) -> Result<View<'a>, NoMemory>
    requires { terms.IsAscending (filled slots.now) }
    ensures { IfOk result (λ view. view ≡ filled slots.now) }
{
    let mut view = View::with_room(alloc, slots.len())?;
    for slot in slots {
        push_seen(&mut view, slot)?;
    }
    Ok(view)
}

fn is_other_at(side: Side, feature: &Feature, other: &Feature, place: GridPoint) -> bool
    ensures { result ≡ (terms.is_on_side side other.now && (not (other.now.handle == feature.now.handle) && has_side_at other.now place)) }
{
    side.holds(other) && other.handle() != feature.handle() && SideThere::is_at(other, place)
}

/// Whether a segment of another feature of the side that is shown holds the place.
pub(crate) fn holds_other(side: Side, view: &View<'_>, feature: &Feature, place: GridPoint) -> bool
    ensures { result ≡ holds_other feature.now (of_side side view.now) place }
{
    for i in 0..view.len() {
        if is_other_at(side, feature, view.feature(i), place) {
            return true;
        }
    }
    false
}

fn is_point_in(side: Side, polygon: &Feature, other: &Feature) -> bool
    ensures { result ≡ (terms.is_on_side side other.now && is_round polygon.now (terms.place other.now)) }
{
    side.holds(other) && contains(polygon, other)
}

/// Whether no point of the side that is shown is inside the polygon.
pub(crate) fn none_inside(side: Side, view: &View<'_>, polygon: &Feature) -> bool
    ensures { result ≡ none_inside polygon.now (of_side side view.now) }
{
    for i in 0..view.len() {
        if is_point_in(side, polygon, view.feature(i)) {
            return false;
        }
    }
    true
}
