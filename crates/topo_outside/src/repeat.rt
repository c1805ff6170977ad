ghost use Rattle.std.specs.Prelude.{◌≡◌, ◌+◌, ◌<◌, ◌%◌, ◌++◌, take, drop, length, None, IfOk, IsOk};
ghost use Rattle.std.specs.Io.{ReadsAtMost};
ghost use Rattle.std.specs.Io.KnownBytes.{ReadConsumes};
ghost use Rattle.topo_outside.specs.Causes.{ReadCause};

use crate::memory::copy_piece;
use crate::{Failed, Source};

/// A source without end: it gives one piece again and again, does not fail, and tells nothing of what is left.
#[derive(Drop)]
pub struct RepeatSource {
    piece: Vec<u8>,
    at: usize,
    ghost at_in_range: { at < length piece.items },
}

impl RepeatSource {
    /// The source of this piece.
    pub fn new(piece: Vec<u8>) -> Self
        requires { 0 < length piece.items }
        ensures piece { result.piece ≡ piece }
        ensures at { result.at ≡ 0 }
    {
        RepeatSource { piece, at: 0 }
    }
}

impl Source for RepeatSource {
    ghost left = { λ s. None };

    ghost faults = { λ s. 0 };

    fn read(&mut self, buf: &mut [u8]) -> Result<usize, Failed>
        ensures bound { ReadsAtMost result buf.new }
        ensures bytes { ReadConsumes None None result buf.new }
        ensures cause { ReadCause 0 0 result }
        ensures sure { IsOk result }
        ensures given { IfOk result (λ n. drop self.old.at self.old.piece.items ≡ take n buf.new ++ drop (self.old.at + n) self.old.piece.items) }
        ensures some { 0 < length buf.new → IfOk result (λ n. 0 < n) }
        ensures next { IfOk result (λ n. self.new.at ≡ (self.old.at + n) % length self.old.piece.items) }
        ensures as_given { self.new.piece ≡ self.old.piece }
    {
        let count = copy_piece(&self.piece, self.at, buf, usize::MAX);
        self.at = (self.at + count) % self.piece.len();
        Ok(count)
    }
}
