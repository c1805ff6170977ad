ghost use Rattle.std.specs.Prelude.{◌≡◌, IfOk};
ghost use Rattle.topology_terms.specs.Broken.{Fits};
ghost use Rattle.topology_terms.specs.Plans.{IsCutting};
ghost use Rattle.topology_terms.specs.Counts.{raised};
ghost use Rattle.rule_core.specs.Shown.{IsShown};

use crate as rules;
use crate::rule_body::RuleBody;
use crate::rule_for::RuleFor;
use grid_plane::NoMemory;
use rule_core::{Findings, RuleRow, View, Work, judge};
use rule_words::RuleKind;
use std::alloc::Global;

/// A subject that a row judges, and what it is shown.
#[derive(Clone, Copy)]
pub(crate) struct Case<'a> {
    pub(crate) alloc: Global,
    pub(crate) row: &'a RuleRow,
    pub(crate) view: &'a View<'a>,
    pub(crate) subject: u32,
}

impl<'a> Case<'a> {
    /// What the rule of this kind finds; the row is of the kind.
    pub(crate) fn by<R: RuleBody>(self, work: &mut Work) -> Result<Findings, NoMemory>
        requires kind { self.row.now.kind ≡ R.kind }
        requires shown { IsShown self.row.now self.view.now self.subject }
        requires fits { Fits self.row.now self.view.now }
        ensures cut { IfOk result (λ xs. IsCutting self.entry.row.now self.entry.view.now self.entry.subject xs) }
        ensures judged { work.new.judged ≡ raised work.old.judged 1 }
    {
        let rule: RuleFor<R> = RuleFor::new(*self.row);
        judge(&rule, self.alloc, self.view, self.subject, work)
    }

    /// What the rule of the row's kind finds.
    pub(crate) fn judged(self, work: &mut Work) -> Result<Findings, NoMemory>
        requires shown { IsShown self.row.now self.view.now self.subject }
        requires fits { Fits self.row.now self.view.now }
        ensures cut { IfOk result (λ xs. IsCutting self.entry.row.now self.entry.view.now self.entry.subject xs) }
        ensures judged { work.new.judged ≡ raised work.old.judged 1 }
    {
        let row = self.row;
        match row.kind {
            RuleKind::PolygonMustNotOverlap => self.by::<rules::PolygonMustNotOverlap>(work),
            RuleKind::PolygonMustNotOverlapWith => self.by::<rules::PolygonMustNotOverlapWith>(
                work,
            ),
            RuleKind::PolygonMustNotHaveGaps => self.by::<rules::PolygonMustNotHaveGaps>(work),
            RuleKind::PolygonMustBeCoveredByFeatureClassOf => self.by::<
                rules::PolygonMustBeCoveredByFeatureClassOf,
            >(work),
            RuleKind::PolygonMustCoverEachOther => self.by::<rules::PolygonMustCoverEachOther>(
                work,
            ),
            RuleKind::PolygonBoundaryMustBeCoveredBy => self.by::<
                rules::PolygonBoundaryMustBeCoveredBy,
            >(work),
            RuleKind::PolygonAreaBoundaryMustBeCoveredByBoundaryOf => self.by::<
                rules::PolygonAreaBoundaryMustBeCoveredByBoundaryOf,
            >(work),
            RuleKind::PolygonMustBeCoveredBy => self.by::<rules::PolygonMustBeCoveredBy>(work),
            RuleKind::PolygonContainsPoint => self.by::<rules::PolygonContainsPoint>(work),
            RuleKind::LineMustNotOverlap => self.by::<rules::LineMustNotOverlap>(work),
            RuleKind::LineMustNotOverlapWith => self.by::<rules::LineMustNotOverlapWith>(work),
            RuleKind::LineMustNotIntersect => self.by::<rules::LineMustNotIntersect>(work),
            RuleKind::LineMustNotIntersectOrTouchInterior => self.by::<
                rules::LineMustNotIntersectOrTouchInterior,
            >(work),
            RuleKind::LineMustNotHaveDangles => self.by::<rules::LineMustNotHaveDangles>(work),
            RuleKind::LineMustNotHavePseudoNodes => self.by::<rules::LineMustNotHavePseudoNodes>(
                work,
            ),
            RuleKind::LineMustBeCoveredByFeatureClassOf => self.by::<
                rules::LineMustBeCoveredByFeatureClassOf,
            >(work),
            RuleKind::LineMustBeCoveredByBoundaryOf => self.by::<
                rules::LineMustBeCoveredByBoundaryOf,
            >(work),
            RuleKind::LineEndpointMustBeCoveredBy => self.by::<rules::LineEndpointMustBeCoveredBy>(
                work,
            ),
            RuleKind::LineMustNotSelfOverlap => self.by::<rules::LineMustNotSelfOverlap>(work),
            RuleKind::LineMustNotSelfIntersect => self.by::<rules::LineMustNotSelfIntersect>(work),
            RuleKind::LineMustBeSinglePart => self.by::<rules::LineMustBeSinglePart>(work),
            RuleKind::PointMustBeDisjoint => self.by::<rules::PointMustBeDisjoint>(work),
            RuleKind::PointMustCoincideWith => self.by::<rules::PointMustCoincideWith>(work),
            RuleKind::PointMustBeProperlyInside => self.by::<rules::PointMustBeProperlyInside>(
                work,
            ),
            RuleKind::PointMustBeCoveredByBoundaryOf => self.by::<
                rules::PointMustBeCoveredByBoundaryOf,
            >(work),
            RuleKind::PointMustBeCoveredByLine => self.by::<rules::PointMustBeCoveredByLine>(work),
            RuleKind::PointMustBeCoveredByEndpointOf => self.by::<
                rules::PointMustBeCoveredByEndpointOf,
            >(work),
        }
    }
}
