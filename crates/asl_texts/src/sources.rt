//! Where a text comes from.
ghost use Rattle.std.specs.Prelude.{◌≡◌, List, ℕ, Option, Bool, IsTrue, IsFalse, IfOk, OnErr};
ghost use Rattle.std.specs.Io.{ReadsAtMost};
ghost use Rattle.std.specs.Io.KnownBytes.{ReadConsumes};
ghost use Rattle.asl_texts.specs.Fronts.{ReadsFronts};

use std::io::Read;

/// A read or a write that failed. Nothing more is known of it.
#[derive(Clone, Copy)]
pub struct Failed;

/// Where bytes come from.
pub trait Source {
    /// The bytes that are left to read, where they are known.
    ghost remaining: { Self → Option (List ℕ) };
    /// Texts that the bytes which are left are known to begin with. A source that never ends may have texts of
    /// every length here.
    ghost begins: { Self → List ℕ → Type 0 } = { λ _ _. ⊥ };
    /// Whether a read has failed.
    ghost failed: { Self → Bool };

    /// Reads bytes into the front of `buffer` and says how many. None, where there is room, is the end.
    fn read(&mut self, buffer: &mut [u8]) -> Result<usize, Failed>
        ensures within { ReadsAtMost result buffer.new }
        ensures bytes { ReadConsumes (remaining self.old) (remaining self.new) result buffer.new }
        ensures fronts { IfOk result (λ count.
            ReadsFronts (begins self.old) (begins self.new) count buffer.new) }
        ensures failure { OnErr result (IsTrue (failed self.new)) }
        ensures lasting { IsTrue (failed self.old) → IsTrue (failed self.new) };
}

/// A source over one of std's readers. A read that was interrupted is a failed one.
///
/// What std says of a reader speaks neither of its errors nor of one that never ends. So no clause says that the reader
/// failed where this source has, and none what this source begins with where its bytes aren't known.
#[derive(Drop)]
pub struct FromRead<R: Read + Drop> {
    reader: R,
    failed: bool,
}

impl<R: Read + Drop> FromRead<R> {
    /// A source that reads from `reader` and hasn't failed.
    pub fn new(reader: R) -> FromRead<R>
        ensures reader { result.reader ≡ reader }
        ensures fresh { IsFalse result.failed }
    {
        FromRead {
            reader,
            failed: false,
        }
    }
}

impl<R: Read + Drop> Source for FromRead<R> {
    ghost remaining = { λ s. R.remaining s.reader };

    ghost failed = { λ s. s.failed };

    fn read(&mut self, buffer: &mut [u8]) -> Result<usize, Failed> {
        match self.reader.read(buffer) {
            Ok(count) => Ok(count),
            Err(_) => {
                self.failed = true;
                Err(Failed)
            }
        }
    }
}
