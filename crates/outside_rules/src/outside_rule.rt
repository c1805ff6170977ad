ghost use Rattle.std.specs.Prelude.{◌≡◌, ℕ, IfOk};
ghost use Rattle.topology_terms.specs.Counts.{raised};
ghost use Rattle.outside_rule_terms.specs.Outside.{Outside};

use grid_plane::{Name, NoMemory};
use plane_terms::Kind;
use rule_core::View;

/// A rule from outside, which judges whole features.
///
/// It is seen as its word, the kind of its subjects and the test whether a subject breaks it among features, with the law that this
/// depends on the features near the subject alone. None of these ever changes.
pub trait OutsideRule: Drop {
    ghost seen: { Self → Outside };

    ghost count: { Self → ℕ };

    /// The word by which lines name it.
    fn word(&self) -> Name
        ensures { result ≡ (seen self.now).word };

    /// The kind of shape that its subjects have.
    fn takes(&self) -> Kind
        ensures { result ≡ (seen self.now).kind };

    /// How often it was asked: a count that stops at its greatest number.
    fn asked(&self) -> u64
        ensures { result ≡ count self.now };

    /// Whether the subject breaks it among these features, which are those near it. The count rises by one, also where memory runs out.
    fn judge(&mut self, view: &View<'_>, subject: u32) -> Result<bool, NoMemory>
        ensures breaks { IfOk result (λ b. b ≡ (seen self.old).breaks view.now subject) }
        ensures same { seen self.new ≡ seen self.old }
        ensures asked { count self.new ≡ raised (count self.old) 1 };
}
