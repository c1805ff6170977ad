ghost use Rattle.std.specs.Prelude.{◌≡◌, codes};
ghost use Rattle.registry_rules.specs.Sides.{is_narrow};

use grid_plane::{Name, NoMemory};
use outside_rules::{OutsideRule, find};
use plane_terms::Kind;
use rule_core::View;
use shape::Feature;

/// The shorter side of the envelope of a feature of the kind is not below a least width, in grid units.
#[derive(Drop)]
pub struct MinWidth {
    kind: Kind,
    least: u32,
    asked: u64,
}

impl MinWidth {
    /// The rule of this kind and least width; it was never asked.
    pub fn new(kind: Kind, least: u32) -> MinWidth
        ensures kind { result.kind ≡ kind }
        ensures least { result.least ≡ least }
        ensures asked { result.asked ≡ 0 }
    {
        MinWidth {
            kind,
            least,
            asked: 0,
        }
    }
}

fn word() -> Name
    ensures { result ≡ codes "min_width" }
{
    Name::of(b"min_width").unwrap()
}

fn is_narrow(least: u32, f: &Feature) -> bool
    ensures { result ≡ is_narrow least f.now }
{
    let env = f.shape().env();
    let wide = env.x1().abs_diff(env.x0());
    let high = env.y1().abs_diff(env.y0());
    wide.min(high) < least
}

impl OutsideRule for MinWidth {
    ghost use Rattle.registry_rules.specs.Sides.{min_width};

    ghost seen = { λ s. min_width s.kind s.least };

    ghost count = { λ s. s.asked };

    fn word(&self) -> Name {
        word()
    }

    fn takes(&self) -> Kind {
        self.kind
    }

    fn asked(&self) -> u64 {
        self.asked
    }

    fn judge(&mut self, view: &View<'_>, subject: u32) -> Result<bool, NoMemory> {
        self.asked = self.asked.saturating_add(1);
        match find(view, subject) {
            Some(f) => Ok(is_narrow(self.least, f)),
            None => Ok(false),
        }
    }
}
