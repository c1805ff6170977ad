ghost use Rattle.topology_terms.specs.Plans as plans;

use convex_cell::Cells;
use grid_plane::NoMemory;
use rule_core::Work;
use rule_loops::{Common, common_but_ends};
use shape::Feature;
use std::alloc::Global;
use std::marker::Model;

/// What others have in common with a line, but for places that are ends of both.
#[derive(Drop)]
pub struct ButEnds<'a> {
    pub subject: &'a Feature,
}

impl<'a> Model for ButEnds<'a> {
    ghost use Rattle.topology_terms.specs.Feature as terms;

    ghost Value = { terms.Feature };

    ghost view = { λ s. s.subject.now };
}

impl<'a> Common for ButEnds<'a> {
    ghost common = { λ f g. plans.common_but_ends f g };

    fn cells(&self, alloc: Global, partner: &Feature, _work: &mut Work) -> Result<Cells, NoMemory> {
        common_but_ends(alloc, self.subject, partner)
    }
}
