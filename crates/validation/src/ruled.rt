ghost use Rattle.std.specs.Prelude.{◌≡◌};
ghost use Rattle.topology_terms.specs.Feature.{IsAscending};
ghost use Rattle.topology_terms.specs.Project.{AreAscending};
ghost use Rattle.validation.specs.Placed.{ArePlaced};

use crate::near::FeatureIndex;
use feature_store::Features;
use grid_index::{Index, Meter};
use rule_core::InForce;
use std::alloc::Global;
use std::marker::Model;

/// What a validation looks at and leaves as it is, and where it takes memory: what each kind of rule finds, rules in force in the
/// order of their numbers, features in the order of their handles, and an index in which each of them stands. Other pairs that
/// stand in the index change nothing.
#[derive(Drop)]
pub struct RuledFeatures<'a, R, M: Meter> {
    pub(crate) alloc: Global,
    pub(crate) rules: &'a R,
    in_force: &'a [InForce],
    features: &'a Features<'a>,
    index: &'a Index<M>,
}

impl<'a, R, M: Meter> Model for RuledFeatures<'a, R, M> {
    ghost use Rattle.topology_terms.specs.Feature.{IsAscending};
    ghost use Rattle.topology_terms.specs.Project.{AreAscending};
    ghost use Rattle.validation.specs.Placed.{ArePlaced};
    ghost use Rattle.validation.specs.Projects as terms;

    ghost Value = { terms.RuledFeatures };

    ghost view = { λ x. record { in_force = x.in_force.now; features = x.features.now; placed = x.index.now } };

    ghost invariant = { λ x. AreAscending x.in_force.now × IsAscending x.features.now × ArePlaced x.index.now x.features.now };
}

impl<'a, R, M: Meter> RuledFeatures<'a, R, M> {
    /// These rules and these features, each of which stands in the index.
    pub fn of(
        alloc: Global,
        rules: &'a R,
        in_force: &'a [InForce],
        features: &'a Features<'a>,
        index: &'a Index<M>,
    ) -> RuledFeatures<'a, R, M>
        requires rules { AreAscending in_force.now }
        requires features { IsAscending features.now }
        requires placed { ArePlaced index.now features.now }
        ensures { result ≡ record { in_force = in_force.now; features = features.now; placed = index.now } }
    {
        RuledFeatures {
            alloc,
            rules,
            in_force,
            features,
            index,
        }
    }

    /// The rules in force.
    pub(crate) fn in_force(&self) -> &'a [InForce]
        ensures { result.now ≡ self.now.in_force }
    {
        self.in_force
    }

    /// The features.
    pub(crate) fn features(&self) -> &'a Features<'a>
        ensures { result.now ≡ self.now.features }
    {
        self.features
    }

    /// The index in which each feature stands.
    pub(crate) fn index(&self) -> &'a Index<M>
        ensures value { result.now ≡ self.now.placed }
        ensures placed { ArePlaced result.now self.now.features }
    {
        self.index
    }

    /// The features with their index.
    pub(crate) fn indexed(&self) -> FeatureIndex<'a, M>
        ensures { result ≡ record { features = self.now.features; placed = self.now.placed } }
    {
        FeatureIndex::of(self.features, self.index)
    }

    /// The law that the rules ascend by their numbers, and the features by their handles.
    pub(crate) fn order_law(&self)
        ensures rules { AreAscending self.now.in_force }
        ensures features { IsAscending self.now.features }
    {
        let _ = &self.in_force;
    }
}
