//! Reading literal texts.
ghost use Rattle.std.specs.Prelude.{◌≡◌, ◌<◌, ◌∷◌, IfOk, IfSome, IsUtf8, codes, length};
ghost use Rattle.asl_model.specs.CallSpelling.{cut_pieces};
ghost use Rattle.asl_model.specs.PathSpelling.{is_one_of};
ghost use Rattle.asl_intrinsic.specs.Cutting.{Cuts, CutsPiece, cut_by, rest_of, shown_of};
ghost use Rattle.asl_intrinsic.specs.View.{pieces_view};

use crate::Pieces;
use crate::cutting::CutRefusal;
use crate::scanning::Part;
use std::alloc::Global;

/// The literal text behind its opening apostrophe, its escapes undone, and what is behind the closing one.
pub(crate) fn cut_text(alloc: Global, text: &str) -> Result<(Pieces, &str), CutRefusal>
    ensures { Cuts (λ pieces. pieces) pieces_view (cut_pieces text.now) result }
{
    let (first, mut end, mut rest) = cut_piece(alloc, text)?;
    let mut after_holes = Vec::new(alloc);
    while let PieceEnd::Hole = end {
        let (piece, next_end, behind) = cut_piece(alloc, rest)?;
        after_holes.push(piece)?;
        end = next_end;
        rest = behind;
    }
    Ok((Pieces { first, after_holes }, rest))
}

/// What ends a piece of a literal text.
#[derive(Clone, Copy)]
enum PieceEnd {
    /// A hole: another piece follows.
    Hole,
    /// The closing apostrophe.
    Apostrophe,
}

/// The piece that the text begins with, what ends it, and what is behind that.
fn cut_piece(alloc: Global, text: &str) -> Result<(String, PieceEnd, &str), CutRefusal>
    ensures piece { CutsPiece text.now result }
    ensures shorter { IfOk result (λ c. length c.2.now < length text.now) }
    ensures utf8 { IfOk result (λ c. IsUtf8 c.2.now) }
{
    let mut piece = String::new(alloc);
    let mut rest = text;
    loop {
        match next_in(rest) {
            Next::Shown(shown, behind) => {
                piece.push_str(shown)?;
                rest = behind;
            }
            Next::Hole(behind) => return Ok((piece, PieceEnd::Hole, behind)),
            Next::Apostrophe(behind) => return Ok((piece, PieceEnd::Apostrophe, behind)),
            Next::Nothing => return Err(CutRefusal::Malformed),
        }
    }
}

/// What comes next in a literal text.
enum Next<'s> {
    /// Bytes that the text shows, and what is behind them.
    Shown(&'s str, &'s str),
    /// A hole, and what is behind it.
    Hole(&'s str),
    /// The closing apostrophe, and what is behind it.
    Apostrophe(&'s str),
    /// The text is over too early, or a backslash escapes nothing.
    Nothing,
}

/// What comes next in the text.
fn next_in(text: &str) -> Next<'_>
    ensures cut { cut_pieces text.now ≡ cut_by result }
    ensures shorter { IfSome (rest_of result) (λ rest. length rest < length text.now) }
    ensures utf8 { IfSome (rest_of result) (λ rest. IsUtf8 rest) }
    ensures shown_utf8 { IfSome (shown_of result) (λ shown. IsUtf8 shown) }
{
    let (plain, special) = Part::Plain.cut(text);
    if !plain.is_empty() {
        return Next::Shown(plain, special);
    }
    if let Some(behind) = text.strip_prefix("'") {
        return Next::Apostrophe(behind);
    }
    if let Some(behind) = text.strip_prefix("{}") {
        return Next::Hole(behind);
    }
    if text.starts_with("{") {
        let (brace, behind) = text.split_at(1);
        return Next::Shown(brace, behind);
    }
    match text.strip_prefix("\\") {
        Some(escaped) => next_escaped(escaped),
        None => Next::Nothing,
    }
}

/// The character that a backslash in front of the text escapes.
fn next_escaped(text: &str) -> Next<'_>
    ensures cut { cut_pieces (92 ∷ text.now) ≡ cut_by result }
    ensures shorter { IfSome (rest_of result) (λ rest. length rest < length text.now) }
    ensures utf8 { IfSome (rest_of result) (λ rest. IsUtf8 rest) }
    ensures shown_utf8 { IfSome (shown_of result) (λ shown. IsUtf8 shown) }
{
    match text.as_bytes() {
        [first, ..] if may_be_escaped(*first) => {
            let (escaped, behind) = text.split_at(1);
            Next::Shown(escaped, behind)
        }
        _ => Next::Nothing,
    }
}

/// Whether a backslash escapes the byte.
fn may_be_escaped(byte: u8) -> bool
    ensures { result ≡ is_one_of (codes "'{}\\") byte }
{
    matches!(byte, b'\'' | b'{' | b'}' | b'\\')
}
