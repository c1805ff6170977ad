// The rules of a topology: their words, and the kinds of shape that they take.
#![tactic(auto)]

mod rule_kind;

pub use plane_terms::Kind;
pub use rule_kind::RuleKind;
