//! A source that never ends, which no call reads as a text: its contract is the theorem, over [`read_text`]'s.
#![tactic(auto)]

ghost use Rattle.std.specs.Prelude.{None, IsErr, false};
ghost use Rattle.asl_endless.specs.Repeated.{Repeats};

use asl_texts::{Failed, RunFault, Source, read_text};
use std::alloc::Global;

/// Gives the letter a for ever.
#[derive(Drop)]
pub struct Endless;

impl Source for Endless {
    ghost remaining = { λ _. None };

    ghost begins = { λ _. Repeats 97 };

    ghost failed = { λ _. false };

    fn read(&mut self, buffer: &mut [u8]) -> Result<usize, Failed> {
        buffer.fill(b'a');
        Ok(buffer.len())
    }
}

/// What reading a text that never ends comes to: it is refused.
pub fn endless_text(alloc: Global) -> Result<Vec<u8>, RunFault>
    ensures { IsErr result }
{
    read_text(alloc, &mut Endless)
}
