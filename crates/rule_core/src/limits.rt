ghost use Rattle.std.specs.Prelude.{◌≡◌};
ghost use Rattle.std.specs.NonZero.{non_zero_usize_get};
ghost use Rattle.rule_core.specs.Junctions.{most_places};
ghost use Rattle.rule_core.specs.Kept.{most_features, most_halves};

use crate::region::Region;
use std::num::NonZeroUsize;

/// Cells of the insides of so many features are kept, at most.
const MOST_INSIDES: usize = 4_096;

/// So many half-planes of insides are kept in all, at most, 16 bytes each: those of a lake of 2,000 vertices, whichever way it lies.
const MOST_INSIDE_HALVES: usize = 1_048_576;

/// The same of outsides: of more features, since a change near one asks for those of all that lie round it.
const MOST_OUTSIDES: usize = 8_192;

const MOST_OUTSIDE_HALVES: usize = 655_360;

/// Handles are kept for so many places where many features meet, at most.
const MOST_PLACES: usize = 1_024;

/// Cells of this region are kept of so many features, at most.
pub(crate) fn most_features(region: Region) -> NonZeroUsize
    ensures { non_zero_usize_get result ≡ most_features region }
{
    match region {
        Region::Inside => NonZeroUsize::new(MOST_INSIDES).unwrap(),
        Region::Outside => NonZeroUsize::new(MOST_OUTSIDES).unwrap(),
    }
}

/// So many half-planes of this region are kept in all, at most.
pub(crate) fn most_halves(region: Region) -> usize
    ensures { result ≡ most_halves region }
{
    match region {
        Region::Inside => MOST_INSIDE_HALVES,
        Region::Outside => MOST_OUTSIDE_HALVES,
    }
}

/// Handles are kept for so many places, at most.
pub(crate) fn most_places() -> NonZeroUsize
    ensures { non_zero_usize_get result ≡ most_places }
{
    NonZeroUsize::new(MOST_PLACES).unwrap()
}
