ghost use Rattle.std.specs.Prelude.{◌≡◌, None, Some, MatchOption};
ghost use Rattle.topology_terms.specs.Feature as terms;

use rule_core::View;
use shape::Feature;

/// The feature of this handle among those that a rule is shown, if it is there. Takes at most a step for each of them.
pub fn find<'a>(view: &View<'a>, handle: u32) -> Option<&'a Feature>
    ensures { MatchOption result (terms.feature_at view.now handle ≡ None) (λ f. terms.feature_at view.now handle ≡ Some f.now) }
{
    for i in 0..view.len() {
        let f = view.feature(i);
        if f.handle() == handle {
            return Some(f);
        }
    }
    None
}
