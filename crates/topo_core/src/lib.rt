// A topology of any classes and any rules: each change is the one that the definitions name, and keeps it sound.
#![tactic(auto)]

mod data;
mod fault;
mod fitting;
mod growth;
mod no_rule;
mod places;
mod rule_fault;
mod rules;
mod topology;

pub use error_store::{Key, MarkFault};
pub use fault::ChangeFault;
pub use feature_store::{Feature, Kind, Name, NoMemory, Shape, StoreFault};
pub use no_rule::NoRule;
pub use project_check::Unsound;
pub use rule_core::{KindRules, RuleRow};
pub use rule_fault::RuleFault;
pub use topology::{Summary, Topology};
