ghost use Rattle.std.specs.Prelude.{◌≡◌, codes};
ghost use Rattle.registry_rules.specs.Parts.{leaves};

use grid_plane::{Name, NoMemory, Rect};
use outside_rules::{OutsideRule, find};
use plane_terms::Kind;
use rule_core::View;
use shape::Feature;

/// Each feature of the kind lies inside a rectangle; it may touch its border.
#[derive(Drop)]
pub struct InsideRectangle {
    kind: Kind,
    area: Rect,
    asked: u64,
}

impl InsideRectangle {
    /// The rule of this kind and rectangle; it was never asked.
    pub fn new(kind: Kind, area: Rect) -> InsideRectangle
        ensures kind { result.kind ≡ kind }
        ensures area { result.area ≡ area }
        ensures asked { result.asked ≡ 0 }
    {
        InsideRectangle {
            kind,
            area,
            asked: 0,
        }
    }
}

fn word() -> Name
    ensures { result ≡ codes "inside" }
{
    Name::of(b"inside").unwrap()
}

fn leaves(area: &Rect, f: &Feature) -> bool
    ensures { result ≡ leaves area.now f.now }
{
    !area.holds_rect(&f.shape().env())
}

impl OutsideRule for InsideRectangle {
    ghost use Rattle.registry_rules.specs.Parts.{inside};

    ghost seen = { λ s. inside s.kind s.area };

    ghost count = { λ s. s.asked };

    fn word(&self) -> Name {
        word()
    }

    fn takes(&self) -> Kind {
        self.kind
    }

    fn asked(&self) -> u64 {
        self.asked
    }

    fn judge(&mut self, view: &View<'_>, subject: u32) -> Result<bool, NoMemory> {
        self.asked = self.asked.saturating_add(1);
        match find(view, subject) {
            Some(f) => Ok(leaves(&self.area, f)),
            None => Ok(false),
        }
    }
}
