//! What was read of a source and isn't taken yet.
ghost use Rattle.std.specs.Prelude.{◌≡◌, ◌≤◌, [], drop, length, IsTrue, OnOk, OnErr, Err};
ghost use Rattle.std.specs.Io.KnownBytes.{Keeps, IsAtEnd, prepend_known};

use crate::sources::{Failed, Source};

/// How many bytes are read at once.
pub(crate) const CHUNK: usize = 8192;

/// Bytes that were read and aren't taken yet: those from `start` to `end`.
#[derive(Drop)]
pub(crate) struct Chunk {
    bytes: [u8; CHUNK],
    start: usize,
    end: usize,
    ghost ordered: { start ≤ end },
    ghost within: { end ≤ 8192 },
}

impl Chunk {
    ghost use Rattle.asl_texts.specs.Chunk.{pending};
    ghost use Rattle.asl_texts.specs.Fronts.{FillsFronts};

    /// A chunk with nothing in it.
    pub(crate) fn new() -> Chunk
        ensures { pending result ≡ [] }
    {
        Chunk {
            bytes: [0; CHUNK],
            start: 0,
            end: 0,
        }
    }

    /// The bytes that aren't taken yet.
    pub(crate) fn rest(&self) -> &[u8]
        ensures { result.now ≡ pending self.now }
    {
        &self.bytes[self.start..self.end]
    }

    /// Passes over the first `count` bytes.
    pub(crate) fn take(&mut self, count: usize)
        requires { count ≤ length (pending self.old) }
        ensures { pending self.new ≡ drop count (pending self.old) }
    {
        self.start += count;
    }

    /// Reads the next bytes, where all have been taken. Nothing is there afterwards only at the end of the source.
    pub(crate) fn fill<S: Source>(&mut self, source: &mut S) -> Result<(), Failed>
        ensures same { Keeps (prepend_known (pending self.old) (S.remaining source.old))
            (prepend_known (pending self.new) (S.remaining source.new)) }
        ensures end { OnOk result (pending self.new ≡ [] → IsAtEnd (S.remaining source.new)) }
        ensures fronts { OnOk result (FillsFronts (S.begins source.old) (S.begins source.new)
            (pending self.old) (pending self.new)) }
        ensures failure { OnErr result (IsTrue (S.failed source.new)) }
        ensures lasting { IsTrue (S.failed source.old) → IsTrue (S.failed source.new) }
    {
        if self.start < self.end {
            return Ok(());
        }
        let count = source.read(&mut self.bytes)?;
        self.start = 0;
        self.end = count;
        Ok(())
    }
}
