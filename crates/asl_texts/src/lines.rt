//! The lines of a source, taken by chunks.

ghost use Rattle.std.specs.Prelude.{◌≡◌, ◌≤◌, length, vec_len, IsTrue, IfOk, IfErr, OnOk};
ghost use Rattle.std.specs.Io.KnownBytes.{prepend_known};
ghost use Rattle.asl_texts.specs.Chunk.{pending};
ghost use Rattle.asl_model.specs.Printed.{first_line};
ghost use Rattle.asl_texts.specs.Fronts.{NoFrontLineIsLong, TakesFrontLine};
ghost use Rattle.asl_texts.specs.Lines.{TakesLine, LineFaultStands, AreLines, NoLineIsLong, LinesFaultStands};

use crate::chunks::Chunk;
use crate::refusals::RunFault;
use crate::sources::Source;
use crate::texts::TEXT_LIMIT;
use std::alloc::Global;

/// The three lines that are checked.
#[derive(Drop)]
pub(crate) struct Lines {
    pub(crate) definition: Vec<u8>,
    pub(crate) declared: Vec<u8>,
    pub(crate) certificate: Vec<u8>,
}

/// The first three lines of a source, without their breaks. A missing line is empty.
///
/// Refused: TooLong for a line of more than `TEXT_LIMIT` bytes; Read where a read failed.
pub(crate) fn read_lines<S: Source>(alloc: Global, source: &mut S) -> Result<Lines, RunFault>
    ensures lines { IfOk result (λ lines. AreLines (S.remaining source.old) lines.definition.items
        lines.declared.items lines.certificate.items) }
    ensures short { OnOk result (NoLineIsLong (S.remaining source.old)) }
    ensures endless { OnOk result (NoFrontLineIsLong (S.begins source.old)) }
    ensures fault { IfErr result
        (λ fault. LinesFaultStands (S.remaining source.old) (S.failed source.new) fault) }
    ensures lasting { IsTrue (S.failed source.old) → IsTrue (S.failed source.new) }
{
    let mut chunk = Chunk::new();
    let definition = next_line(alloc, source, &mut chunk)?;
    let declared = next_line(alloc, source, &mut chunk)?;
    let certificate = next_line(alloc, source, &mut chunk)?;
    Ok(Lines {
        definition,
        declared,
        certificate,
    })
}

/// The next line, without its break (U+000A). At the end of the source it is what is left, or nothing.
///
/// Refused: TooLong where the line has more than `TEXT_LIMIT` bytes, which aren't held; Read where a read failed.
pub(crate) fn next_line<S: Source>(
    alloc: Global,
    source: &mut S,
    chunk: &mut Chunk,
) -> Result<Vec<u8>, RunFault>
    ensures line { IfOk result
        (λ line. TakesLine (prepend_known (pending chunk.old) (S.remaining source.old))
        (prepend_known (pending chunk.new) (S.remaining source.new)) line.items) }
    ensures within { IfOk result (λ line. vec_len line ≤ 16777216) }
    ensures fronts { OnOk result (TakesFrontLine (S.begins source.old) (S.begins source.new)
        (pending chunk.old) (pending chunk.new)) }
    ensures fault { IfErr result (λ fault. LineFaultStands
        (prepend_known (pending chunk.old) (S.remaining source.old)) (S.failed source.new) fault) }
    ensures lasting { IsTrue (S.failed source.old) → IsTrue (S.failed source.new) }
{
    let mut line = Vec::new(alloc);
    'pieces: loop {
        match chunk.fill(source) {
            Ok(()) => {}
            Err(_) => return Err(RunFault::Read),
        }
        let rest = chunk.rest();
        if rest.is_empty() {
            return Ok(line);
        }
        let front = front_of_line(rest);
        let ends = front < rest.len();
        if front > TEXT_LIMIT - line.len() {
            return Err(RunFault::TooLong);
        }
        line.extend_from_slice(&rest[..front])?;
        chunk.take(front);
        if ends {
            chunk.take(1);
            return Ok(line);
        }
    }
}

/// How many bytes stand before the first line break, or all of them.
fn front_of_line(bytes: &[u8]) -> usize
    ensures count { result ≡ length (first_line bytes.now) }
    ensures within { result ≤ length bytes.now }
{
    for (i, byte) in bytes.iter().enumerate() {
        if *byte == b'\n' {
            return i;
        }
    }
    bytes.len()
}
