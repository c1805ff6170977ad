ghost use Rattle.topology_terms.specs.Plans as plans;

use convex_cell::Cells;
use grid_plane::NoMemory;
use rule_core::Work;
use rule_loops::{Common, common_stretches};
use shape::Feature;
use std::alloc::Global;
use std::marker::Model;

/// Where segments of others overlap those of a line.
#[derive(Drop)]
pub struct Stretches<'a> {
    pub subject: &'a Feature,
}

impl<'a> Model for Stretches<'a> {
    ghost use Rattle.topology_terms.specs.Feature as terms;

    ghost Value = { terms.Feature };

    ghost view = { λ s. s.subject.now };
}

impl<'a> Common for Stretches<'a> {
    ghost common = { λ f g. plans.common_stretches f g };

    fn cells(&self, alloc: Global, partner: &Feature, _work: &mut Work) -> Result<Cells, NoMemory> {
        common_stretches(alloc, self.subject, partner)
    }
}
