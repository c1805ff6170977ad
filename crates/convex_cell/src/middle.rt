ghost use Rattle.std.specs.Prelude.{◌≤◌, ◌^◌, unsigned_abs};

/// A point whose coordinates are whole steps: half units.
#[derive(Clone, Copy)]
pub(crate) struct Middle {
    pub(crate) x: i64,
    pub(crate) y: i64,
    ghost x_fits: { unsigned_abs x ≤ 2 ^ 23 },
    ghost y_fits: { unsigned_abs y ≤ 2 ^ 23 },
}
