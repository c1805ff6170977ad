ghost use Rattle.std.specs.Prelude.{◌≡◌, List, filter, IfOk};
ghost use Rattle.plane_terms.specs.Cell as planes;
ghost use Rattle.topology_terms.specs.Feature.{Feature, IsAscending};
ghost use Rattle.topology_terms.specs.Plans as plans;
ghost use Rattle.topology_terms.specs.Together.{of_side};
ghost use Rattle.rule_loops.specs.Views.{later_of};

use crate::single::push_cells;
use convex_cell::Cells;
use grid_plane::NoMemory;
use rule_core::{Findings, Side, View, Work};
use shape::Feature;
use std::alloc::Global;

/// What a subject has in common with a partner, as one rule takes it. A value holds what is taken from the subject.
pub trait Common {
    ghost common: { Self → Feature → List planes.Cell };

    /// The cells in common with this partner; the count of judgements stays.
    fn cells(&self, alloc: Global, partner: &Feature, work: &mut Work) -> Result<Cells, NoMemory>
        ensures cells { IfOk result (λ cells. cells ≡ common self.now partner.now) }
        ensures uncounted { work.new.judged ≡ work.old.judged };
}

fn is_later(side: Side, subject: &Feature, other: &Feature) -> bool
    ensures { result ≡ later_of side subject.now other.now }
{
    side.holds(other) && other.handle() > subject.handle()
}

/// A finding for each feature of the side that is shown, comes after the subject and has something in common with it.
pub fn with_later<C: Common>(
    alloc: Global,
    common: &C,
    side: Side,
    subject: &Feature,
    view: &View<'_>,
    work: &mut Work,
) -> Result<Findings, NoMemory>
    requires { IsAscending view.now }
    ensures found { IfOk result (λ xs. xs ≡ plans.pair_findings (C.common common.now) (filter (later_of side subject.now) view.now)) }
    ensures uncounted { work.new.judged ≡ work.old.judged }
{
    let mut findings = Findings::new(alloc);
    for i in 0..view.len() {
        let other = view.feature(i);
        if is_later(side, subject, other) {
            let cells = common.cells(alloc, other, work)?;
            push_cells(&mut findings, other.handle(), cells)?;
        }
    }
    Ok(findings)
}

/// A finding for each feature of the side that is shown and has something in common with the subject.
pub fn with_side<C: Common>(
    alloc: Global,
    common: &C,
    side: Side,
    view: &View<'_>,
    work: &mut Work,
) -> Result<Findings, NoMemory>
    requires { IsAscending view.now }
    ensures found { IfOk result (λ xs. xs ≡ plans.pair_findings (C.common common.now) (of_side side view.now)) }
    ensures uncounted { work.new.judged ≡ work.old.judged }
{
    let mut findings = Findings::new(alloc);
    for i in 0..view.len() {
        let other = view.feature(i);
        if side.holds(other) {
            let cells = common.cells(alloc, other, work)?;
            push_cells(&mut findings, other.handle(), cells)?;
        }
    }
    Ok(findings)
}
