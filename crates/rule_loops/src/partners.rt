ghost use Rattle.std.specs.Prelude.{◌≡◌, Bool, ◌&&◌, not, [], IfOk, if◌then◌else◌};
ghost use Rattle.std.specs.List.{list_any};
ghost use Rattle.topology_terms.specs.Feature.{Feature, is_on_side};
ghost use Rattle.topology_terms.specs.Plans as plans;
ghost use Rattle.topology_terms.specs.Together.{of_side};

use crate::single::whole_finding;
use grid_plane::NoMemory;
use rule_core::{Findings, Side, View, Work};
use shape::Feature;
use std::alloc::Global;

/// A test of a partner. A value holds what a partner is tried for.
pub trait Test {
    ghost test: { Self → Feature → Bool };

    /// Whether the partner passes; the count of judgements stays.
    fn passes(&self, alloc: Global, partner: &Feature, work: &mut Work) -> Result<bool, NoMemory>
        ensures passes { IfOk result (λ passed. passed ≡ test self.now partner.now) }
        ensures uncounted { work.new.judged ≡ work.old.judged };
}

fn passes_in<T: Test>(
    alloc: Global,
    test: &T,
    side: Side,
    partner: &Feature,
    work: &mut Work,
) -> Result<bool, NoMemory>
    ensures passes { IfOk result (λ passed. passed ≡ (is_on_side side partner.now && T.test test.now partner.now)) }
    ensures uncounted { work.new.judged ≡ work.old.judged }
{
    if !side.holds(partner) {
        return Ok(false);
    }
    test.passes(alloc, partner, work)
}

/// Whether a feature of the side that is shown passes the test. Stops at the first that does.
pub fn any_passes<T: Test>(
    alloc: Global,
    test: &T,
    side: Side,
    view: &View<'_>,
    work: &mut Work,
) -> Result<bool, NoMemory>
    ensures any { IfOk result (λ some. some ≡ list_any (T.test test.now) (of_side side view.now)) }
    ensures uncounted { work.new.judged ≡ work.old.judged }
{
    for i in 0..view.len() {
        if passes_in(alloc, test, side, view.feature(i), work)? {
            return Ok(true);
        }
    }
    Ok(false)
}

/// A finding of the whole subject, where no feature of the side that is shown passes the test.
pub fn whole_without<T: Test>(
    alloc: Global,
    test: &T,
    side: Side,
    view: &View<'_>,
    work: &mut Work,
) -> Result<Findings, NoMemory>
    ensures found { IfOk result (λ xs. xs ≡ if not (list_any (T.test test.now) (of_side side view.now)) then plans.whole_finding else []) }
    ensures uncounted { work.new.judged ≡ work.old.judged }
{
    let some = any_passes(alloc, test, side, view, work)?;
    whole_finding(alloc, !some)
}
