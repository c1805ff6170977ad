ghost use Rattle.std.specs.Prelude.{pos, ◌<ℤ◌, ◌≤◌, ◌^◌, unsigned_abs};

use grid_plane::Seg;

/// A segment with its place in the middle of a column: `level / width` is minus twice its height there, in grid units.
#[derive(Clone, Copy)]
pub(crate) struct Ranked {
    pub(crate) level: i64,
    pub(crate) width: i64,
    pub(crate) segment: Seg,
    ghost positive: { pos 0 <ℤ width },
    ghost narrow: { unsigned_abs width ≤ 2 ^ 23 },
    ghost low: { unsigned_abs level ≤ 2 ^ 48 },
}
