ghost use Rattle.std.specs.Prelude.{◌≡◌, ◌+◌, true, false};
ghost use Rattle.topo_outside.specs.Memory.{counted};

/// How many runs of a kind there were, and how many did not end as they were to.
#[derive(Drop)]
pub struct Tally {
    runs: u64,
    differ: u64,
}

impl Tally {
    /// No runs.
    pub fn new() -> Self
        ensures none { (result.runs ≡ 0) × (result.differ ≡ 0) }
    {
        Tally { runs: 0, differ: 0 }
    }

    /// Counts a run, and where it did not end as it was to, counts it among those too.
    pub fn note(&mut self, is_good: bool)
        ensures runs { self.new.runs ≡ counted self.old.runs }
        ensures good { is_good ≡ true → self.new.differ ≡ self.old.differ }
        ensures bad { is_good ≡ false → self.new.differ ≡ counted self.old.differ }
    {
        self.runs = self.runs.saturating_add(1);
        if !is_good {
            self.differ = self.differ.saturating_add(1);
        }
    }

    /// So many runs there were.
    pub fn runs(&self) -> u64
        ensures { result ≡ self.now.runs }
    {
        self.runs
    }

    /// So many of them did not end as they were to.
    pub fn differ(&self) -> u64
        ensures { result ≡ self.now.differ }
    {
        self.differ
    }
}
