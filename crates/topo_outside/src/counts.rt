ghost use Rattle.std.specs.Prelude.{◌≡◌};
ghost use Rattle.topo_outside.specs.Memory.{counted, is_failing, is_idle};

/// One more, up to the greatest u64.
pub fn counted(n: u64) -> u64
    ensures { result ≡ counted n }
{
    n.saturating_add(1)
}

/// Whether the next call, the one after `calls` calls, is to fail.
pub fn is_failing(calls: u64, failing: &[u64]) -> bool
    ensures { result ≡ is_failing calls failing.now }
{
    let call = counted(calls);
    failing.iter().any(|n| *n == call)
}

/// Whether the next call, the one after `calls` calls, is to take nothing: one of these, and none that is to fail.
pub fn is_idle(calls: u64, failing: &[u64], idle: &[u64]) -> bool
    ensures { result ≡ is_idle calls failing.now idle.now }
{
    is_failing(calls, idle) && !is_failing(calls, failing)
}
