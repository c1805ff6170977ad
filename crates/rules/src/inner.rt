ghost use Rattle.topology_terms.specs.Plans as plans;

use convex_cell::Cells;
use grid_plane::NoMemory;
use rule_core::Work;
use rule_loops::{Common, common_inner};
use shape::Feature;
use std::alloc::Global;
use std::marker::Model;

/// What others have in common with a line, but for the ends of both.
#[derive(Drop)]
pub struct Inner<'a> {
    pub subject: &'a Feature,
}

impl<'a> Model for Inner<'a> {
    ghost use Rattle.topology_terms.specs.Feature as terms;

    ghost Value = { terms.Feature };

    ghost view = { λ s. s.subject.now };
}

impl<'a> Common for Inner<'a> {
    ghost common = { λ f g. plans.common_inner f g };

    fn cells(&self, alloc: Global, partner: &Feature, _work: &mut Work) -> Result<Cells, NoMemory> {
        common_inner(alloc, self.subject, partner)
    }
}
