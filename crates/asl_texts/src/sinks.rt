//! Where a text goes.
ghost use Rattle.std.specs.Prelude.{◌≡◌, ◌<◌, List, ℕ, Option, Bool, IsTrue, IsFalse, IfOk, OnErr, OnOk, length};
ghost use Rattle.std.specs.Io.{WritesAtMost};
ghost use Rattle.std.specs.Io.KnownBytes.{Appends, WriteAppends};
ghost use Rattle.asl_texts.specs.Writing.{AppendsFront};

use crate::sources::Failed;
use std::io::Write;

/// Where bytes go.
pub trait Sink {
    /// The bytes that the sink holds, where they are known.
    ghost contents: { Self → Option (List ℕ) };
    /// Whether a write has failed.
    ghost failed: { Self → Bool };

    /// Takes bytes from the front of `bytes` and says how many: at least one where there are any.
    fn write(&mut self, bytes: &[u8]) -> Result<usize, Failed>
        ensures within { WritesAtMost result bytes.now }
        ensures progress { IfOk result (λ n. 0 < length bytes.now → 0 < n) }
        ensures appended { WriteAppends (contents self.old) (contents self.new) result bytes.now }
        ensures failure { OnErr result (IsTrue (failed self.new)) }
        ensures lasting { IsTrue (failed self.old) → IsTrue (failed self.new) };
}

/// A sink over one of std's writers. A write that takes none of the bytes that it is given is a failed one.
///
/// What std says of a writer doesn't speak of its errors, so no clause says that the writer failed where this sink has.
#[derive(Drop)]
pub struct ToWrite<W: Write + Drop> {
    writer: W,
    failed: bool,
}

impl<W: Write + Drop> ToWrite<W> {
    /// A sink that writes to `writer` and hasn't failed.
    pub fn new(writer: W) -> ToWrite<W>
        ensures writer { result.writer ≡ writer }
        ensures fresh { IsFalse result.failed }
    {
        ToWrite {
            writer,
            failed: false,
        }
    }
}

impl<W: Write + Drop> Sink for ToWrite<W> {
    ghost contents = { λ s. W.contents s.writer };

    ghost failed = { λ s. s.failed };

    fn write(&mut self, bytes: &[u8]) -> Result<usize, Failed> {
        match self.writer.write(bytes) {
            Ok(0) => {
                if bytes.is_empty() {
                    Ok(0)
                } else {
                    self.failed = true;
                    Err(Failed)
                }
            }
            Ok(count) => Ok(count),
            Err(_) => {
                self.failed = true;
                Err(Failed)
            }
        }
    }
}

/// Writes all of `bytes`. What went out is a front of them in any case, and all of them on `Ok`.
pub(crate) fn write_all<W: Sink>(sink: &mut W, bytes: &[u8]) -> Result<(), Failed>
    ensures written { OnOk result (Appends (W.contents sink.old) (W.contents sink.new) bytes.now) }
    ensures front { AppendsFront (W.contents sink.old) (W.contents sink.new) bytes.now }
    ensures failure { OnErr result (IsTrue (W.failed sink.new)) }
    ensures lasting { IsTrue (W.failed sink.old) → IsTrue (W.failed sink.new) }
{
    let mut rest = bytes;
    'writes: while !rest.is_empty() {
        let count = sink.write(rest)?;
        rest = &rest[count..];
    }
    Ok(())
}
