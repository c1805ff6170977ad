ghost use Rattle.std.specs.Prelude.{◌≡◌};

use shape::Feature;
use std::marker::Model;

/// A step of a session: a handle, and the feature or absence that a swap there puts back.
#[derive(Drop)]
pub struct Step {
    pub(crate) handle: u32,
    pub(crate) kept: Option<Feature>,
}

impl Model for Step {
    ghost use Rattle.session_terms.specs.Kept.{KeptStep};

    ghost Value = { KeptStep };

    ghost view = { λ s. record { handle = s.handle; kept = s.kept } };
}

impl Step {
    /// The change of this handle, where this feature, or none, stood before.
    pub fn new(handle: u32, kept: Option<Feature>) -> Step
        ensures { result ≡ record { handle = handle; kept = kept } }
    {
        Step { handle, kept }
    }

    pub fn handle(&self) -> u32
        ensures { result ≡ self.now.handle }
    {
        self.handle
    }
}
