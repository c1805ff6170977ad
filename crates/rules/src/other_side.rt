ghost use Rattle.std.specs.Prelude.{◌≡◌};
ghost use Rattle.topology_terms.specs.Plans.{Other, side_by};

use rule_core::{RuleRow, Side};
use shape::Feature;

/// Of the two sides of the row the one that the feature is not of; the second where it is of the first.
pub fn other_side(row: &RuleRow, feature: &Feature) -> Side
    ensures { result ≡ side_by Other row.now feature.now }
{
    if row.origin.holds(feature) {
        row.dest_side()
    } else {
        row.origin
    }
}
