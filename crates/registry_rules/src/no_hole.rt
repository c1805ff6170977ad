ghost use Rattle.std.specs.Prelude.{◌≡◌, ltb, length, codes};
ghost use Rattle.std.specs.List.{list_any};
ghost use Rattle.registry_rules.specs.Parts.{has_hole};

use grid_plane::{GridPoint, Name, NoMemory};
use outside_rules::{OutsideRule, find};
use plane_terms::Kind;
use rule_core::View;
use shape::Feature;

/// No part of a polygon has a second ring, as it was given.
#[derive(Drop)]
pub struct NoHole {
    asked: u64,
}

impl NoHole {
    /// The rule; it was never asked.
    pub fn new() -> NoHole
        ensures asked { result.asked ≡ 0 }
    {
        NoHole { asked: 0 }
    }
}

fn word() -> Name
    ensures { result ≡ codes "no_hole" }
{
    Name::of(b"no_hole").unwrap()
}

// Whether one of these parts has a second ring.
fn has_second_ring(parts: &[Vec<Vec<GridPoint>>]) -> bool
    ensures { result ≡ list_any (λ part. ltb 1 (length part.items)) parts.now }
{
    parts.iter().any(|part| part.len() > 1)
}

fn has_hole(f: &Feature) -> bool
    ensures { result ≡ has_hole f.now }
{
    has_second_ring(f.shape().polygons())
}

impl OutsideRule for NoHole {
    ghost use Rattle.registry_rules.specs.Parts.{no_hole};

    ghost seen = { λ _. no_hole };

    ghost count = { λ s. s.asked };

    fn word(&self) -> Name {
        word()
    }

    fn takes(&self) -> Kind {
        Kind::Polygon
    }

    fn asked(&self) -> u64 {
        self.asked
    }

    fn judge(&mut self, view: &View<'_>, subject: u32) -> Result<bool, NoMemory> {
        self.asked = self.asked.saturating_add(1);
        match find(view, subject) {
            Some(f) => Ok(has_hole(f)),
            None => Ok(false),
        }
    }
}
