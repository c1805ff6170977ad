ghost use Rattle.std.specs.Prelude.{◌≡◌};
ghost use Rattle.std.specs.Ordering.{MatchOrdering};
ghost use Rattle.error_store.specs.Keys.{IsBefore};

use crate::key::Key;
use std::cmp::Ordering;

/// How the keys stand: by rule, then by subject, then by partner.
pub fn compare(j: Key, k: Key) -> Ordering
    ensures { MatchOrdering result (IsBefore j k) (j ≡ k) (IsBefore k j) }
{
    if j.rule < k.rule {
        return Ordering::Less;
    }
    if k.rule < j.rule {
        return Ordering::Greater;
    }
    if j.subject < k.subject {
        return Ordering::Less;
    }
    if k.subject < j.subject {
        return Ordering::Greater;
    }
    if j.partner_number() < k.partner_number() {
        return Ordering::Less;
    }
    if k.partner_number() < j.partner_number() {
        return Ordering::Greater;
    }
    Ordering::Equal
}
