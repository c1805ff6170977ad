// What a rule answers for a subject, and how it judges a subject by what lies near it.
#![tactic(auto)]

mod ends;
mod finding;
mod findings;
mod junctions;
mod keeping;
mod kept;
mod kinds;
mod limits;
mod region;
mod row;
mod rule;
mod side;
mod view;
mod work;

pub use ends::has_end_at;
pub use finding::Finding;
pub use findings::Findings;
pub use kinds::KindRules;
pub use region::Region;
pub use row::{InForce, RuleRow};
pub use rule::{Rule, RuleSet, judge};
pub use side::Side;
pub use view::{View, compare_handles};
pub use work::Work;
