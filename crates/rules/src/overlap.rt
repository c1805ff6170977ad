ghost use Rattle.topology_terms.specs.Plans as plans;

use convex_cell::Cells;
use grid_plane::NoMemory;
use rule_core::Work;
use rule_loops::{Common, common_inside};
use shape::Feature;
use std::alloc::Global;
use std::marker::Model;

/// What others have inside in common with a polygon.
#[derive(Drop)]
pub struct Overlap<'a> {
    pub subject: &'a Feature,
}

impl<'a> Model for Overlap<'a> {
    ghost use Rattle.topology_terms.specs.Feature as terms;

    ghost Value = { terms.Feature };

    ghost view = { λ s. s.subject.now };
}

impl<'a> Common for Overlap<'a> {
    ghost common = { λ f g. plans.overlap_cells f g };

    fn cells(&self, alloc: Global, partner: &Feature, work: &mut Work) -> Result<Cells, NoMemory> {
        common_inside(alloc, self.subject, partner, work)
    }
}
