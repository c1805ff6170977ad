ghost use Rattle.std.specs.Prelude.{◌≡◌, length, codes};
ghost use Rattle.plane_terms.specs.Shape.{vertices_of};
ghost use Rattle.registry_rules.specs.Sides.{has_many_vertices};

use grid_plane::{Name, NoMemory};
use outside_rules::{OutsideRule, find};
use plane_terms::Kind;
use rule_core::View;
use shape::{Feature, Shape};

/// A feature of the kind has at most so many vertices.
#[derive(Drop)]
pub struct MostVertices {
    kind: Kind,
    most: usize,
    asked: u64,
}

impl MostVertices {
    /// The rule of this kind and greatest number; it was never asked.
    pub fn new(kind: Kind, most: usize) -> MostVertices
        ensures kind { result.kind ≡ kind }
        ensures most { result.most ≡ most }
        ensures asked { result.asked ≡ 0 }
    {
        MostVertices {
            kind,
            most,
            asked: 0,
        }
    }
}

fn word() -> Name
    ensures { result ≡ codes "most_vertices" }
{
    Name::of(b"most_vertices").unwrap()
}

// The number of vertices. A polygon has as many as segments, and a line one more for each part.
#[tactic(auto, using(crate::proofs::Vertices::point_count, crate::proofs::Vertices::line_count, crate::proofs::Vertices::line_short, crate::proofs::Vertices::polygon_count))]
fn vertex_count(shape: &Shape) -> usize
    ensures { result ≡ length (vertices_of shape.now) }
{
    match shape.kind() {
        Kind::Point => 1,
        Kind::Line => shape.seg_count() + shape.part_count(),
        Kind::Polygon => shape.seg_count(),
    }
}

fn has_many_vertices(most: usize, f: &Feature) -> bool
    ensures { result ≡ has_many_vertices most f.now }
{
    vertex_count(f.shape()) > most
}

impl OutsideRule for MostVertices {
    ghost use Rattle.registry_rules.specs.Sides.{most_vertices};

    ghost seen = { λ s. most_vertices s.kind s.most };

    ghost count = { λ s. s.asked };

    fn word(&self) -> Name {
        word()
    }

    fn takes(&self) -> Kind {
        self.kind
    }

    fn asked(&self) -> u64 {
        self.asked
    }

    fn judge(&mut self, view: &View<'_>, subject: u32) -> Result<bool, NoMemory> {
        self.asked = self.asked.saturating_add(1);
        match find(view, subject) {
            Some(f) => Ok(has_many_vertices(self.most, f)),
            None => Ok(false),
        }
    }
}
