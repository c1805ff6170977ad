ghost use Rattle.std.specs.Prelude.{◌≡◌, codes};
ghost use Rattle.registry_rules.specs.Parts.{has_many_parts};

use grid_plane::{Name, NoMemory};
use outside_rules::{OutsideRule, find};
use plane_terms::Kind;
use rule_core::View;
use shape::Feature;

/// A feature of the kind has at most so many parts.
#[derive(Drop)]
pub struct MostParts {
    kind: Kind,
    most: usize,
    asked: u64,
}

impl MostParts {
    /// The rule of this kind and greatest number; it was never asked.
    pub fn new(kind: Kind, most: usize) -> MostParts
        ensures kind { result.kind ≡ kind }
        ensures most { result.most ≡ most }
        ensures asked { result.asked ≡ 0 }
    {
        MostParts {
            kind,
            most,
            asked: 0,
        }
    }
}

fn word() -> Name
    ensures { result ≡ codes "most_parts" }
{
    Name::of(b"most_parts").unwrap()
}

fn has_many_parts(most: usize, f: &Feature) -> bool
    ensures { result ≡ has_many_parts most f.now }
{
    f.shape().part_count() > most
}

impl OutsideRule for MostParts {
    ghost use Rattle.registry_rules.specs.Parts.{most_parts};

    ghost seen = { λ s. most_parts s.kind s.most };

    ghost count = { λ s. s.asked };

    fn word(&self) -> Name {
        word()
    }

    fn takes(&self) -> Kind {
        self.kind
    }

    fn asked(&self) -> u64 {
        self.asked
    }

    fn judge(&mut self, view: &View<'_>, subject: u32) -> Result<bool, NoMemory> {
        self.asked = self.asked.saturating_add(1);
        match find(view, subject) {
            Some(f) => Ok(has_many_parts(self.most, f)),
            None => Ok(false),
        }
    }
}
