//! Reading a path's text.
ghost use Rattle.std.specs.Prelude.{◌≡◌, List, ℕ, IfOk, IfErr, MatchResult};
ghost use Rattle.asl_model.specs.PathSpelling.{Spells, StopsAt};
ghost use Rattle.asl_model.specs.Path as model;
ghost use Rattle.asl_path.specs.Refusal.{IsRefused};

use crate::cutting::{after, cut_segment};
use crate::scanning::has_left_out;
use crate::{PathRefusal, RefPath};
use std::alloc::Global;

/// The path that `text` spells (States Language, "Reference Paths").
///
/// A text that doesn't begin with `$` is refused as [`PathRefusal::NoDollar`]. Otherwise the refusal names the byte
/// where the first rest stands that isn't empty and doesn't begin with a segment: [`PathRefusal::LeftOut`] where the
/// text from there on has one of `* ? @ , : (` or `..`, and [`PathRefusal::BadSegment`] where not.
pub fn parse(alloc: Global, text: &str) -> Result<RefPath, PathRefusal>
    ensures path { IfOk result (λ p. Spells text.now p) }
    ensures every_path { (p : List model.Segment) → Spells text.now p
        → MatchResult result (λ q. q ≡ p) (λ refusal. refusal ≡ PathRefusal.OutOfMemory) }
    ensures refused { IfErr result (λ refusal. IsRefused text.now refusal) }
{
    let Some(mut rest) = after(b'$', text) else {
        return Err(PathRefusal::NoDollar);
    };
    let mut segments = Vec::new(alloc);
    while !rest.is_empty() {
        let Some((segment, behind)) = cut_segment(alloc, rest)? else {
            return Err(refusal_at(text.len() - rest.len(), rest));
        };
        segments.push(segment)?;
        rest = behind;
    }
    Ok(RefPath { segments })
}

/// The refusal of a text whose rest from that byte on begins with no segment.
fn refusal_at(byte: usize, rest: &str) -> PathRefusal
    ensures { (text : List ℕ) → StopsAt text byte rest.now → IsRefused text result }
{
    if has_left_out(rest.as_bytes()) {
        PathRefusal::LeftOut(byte)
    } else {
        PathRefusal::BadSegment(byte)
    }
}
