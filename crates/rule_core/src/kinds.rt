ghost use Rattle.rule_core.specs.Kinds.{TakesKinds, NamesPartners};

use crate::rule::RuleSet;

/// All rules, each of which fits where the features of both sides have the kinds that it takes, and the segments of each
/// polygon meet at ends alone. A partner with which a subject breaks a rule is a live feature.
pub trait KindRules: RuleSet {
    ghost kinds: { TakesKinds Self.meaning };

    ghost partners: { NamesPartners Self.meaning };
}
