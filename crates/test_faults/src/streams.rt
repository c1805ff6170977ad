ghost use Rattle.std.specs.Prelude.{◌≡◌, ◌+◌, ◌-◌, ◌^◌, ◌≤◌, length, min, None, IfOk};
ghost use Rattle.std.specs.Io.{ReadsAtMost};
ghost use Rattle.std.specs.Io.KnownBytes.{ReadConsumes};
ghost use Rattle.topo_outside.specs.Causes.{ReadCause};

use topo_outside::{Failed, Source};

/// A source that gives one line again and again, without end.
#[derive(Drop)]
pub struct EndlessSource {
    line: Vec<u8>,
    at: usize,
    before: u64,
    given: u64,
    ghost at_in_range: { at ≤ length line.items },
}

impl EndlessSource {
    /// The source of this line.
    pub fn new(line: Vec<u8>) -> Self
        ensures line { result.line ≡ line }
        ensures unread { (result.at ≡ 0) × (result.before ≡ 0) × (result.given ≡ 0) }
    {
        EndlessSource {
            line,
            at: 0,
            before: 0,
            given: 0,
        }
    }

    /// So many bytes were given before the last read.
    pub fn before(&self) -> u64
        ensures { result ≡ self.now.before }
    {
        self.before
    }

    /// So many bytes were given.
    pub fn given(&self) -> u64
        ensures { result ≡ self.now.given }
    {
        self.given
    }
}

impl Source for EndlessSource {
    ghost left = { λ s. None };

    ghost faults = { λ s. 0 };

    fn read(&mut self, buf: &mut [u8]) -> Result<usize, Failed>
        ensures bound { ReadsAtMost result buf.new }
        ensures bytes { ReadConsumes None None result buf.new }
        ensures cause { ReadCause 0 0 result }
        ensures before { self.new.before ≡ self.old.given }
        ensures given { IfOk result (λ n. self.new.given ≡ min (self.old.given + n) (2 ^ 64 - 1)) }
        ensures line { self.new.line ≡ self.old.line }
    {
        if self.at == self.line.len() {
            self.at = 0;
        }
        let rest = &self.line[self.at..];
        let count = rest.len().min(buf.len());
        buf[..count].copy_from_slice(&rest[..count]);
        self.at += count;
        self.before = self.given;
        self.given = self.given.saturating_add(count as u64);
        Ok(count)
    }
}
