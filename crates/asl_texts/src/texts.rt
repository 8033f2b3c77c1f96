//! A whole source as one text.

ghost use Rattle.std.specs.Prelude.{IsTrue, IfOk, IfErr, OnOk};
ghost use Rattle.asl_texts.specs.Fronts.{NoFrontIsLong};
ghost use Rattle.asl_texts.specs.Texts.{AreText, TextUnreadStands};

use crate::chunks::CHUNK;
use crate::refusals::RunFault;
use crate::sources::Source;
use std::alloc::Global;

/// How many bytes a text may have.
pub(crate) const TEXT_LIMIT: usize = 16777216;

/// All bytes that a source has left.
///
/// Refused: TooLong where there are more than 16777216, which aren't held; Read where a read failed; OutOfMemory
/// where a growth was refused. So a source that never ends is TooLong, but for a failed read or a refused growth.
pub fn read_text<S: Source>(alloc: Global, source: &mut S) -> Result<Vec<u8>, RunFault>
    ensures text { IfOk result (λ text. AreText (S.remaining source.old) text.items) }
    ensures endless { OnOk result (NoFrontIsLong (S.begins source.old)) }
    ensures fault { IfErr result
        (λ fault. TextUnreadStands (S.remaining source.old) (S.failed source.new) fault) }
    ensures lasting { IsTrue (S.failed source.old) → IsTrue (S.failed source.new) }
{
    let mut text = Vec::new(alloc);
    let mut buffer = [0; CHUNK];
    'pieces: loop {
        let count = match source.read(&mut buffer) {
            Ok(count) => count,
            Err(_) => return Err(RunFault::Read),
        };
        if count == 0 {
            return Ok(text);
        }
        if count > TEXT_LIMIT - text.len() {
            return Err(RunFault::TooLong);
        }
        text.extend_from_slice(&buffer[..count])?;
    }
}
