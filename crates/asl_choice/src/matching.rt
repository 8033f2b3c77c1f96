//! Matching a text with a pattern.
ghost use Rattle.std.specs.Prelude.{◌≡◌};
ghost use Rattle.asl_model.specs.Test.{is_cut_by, some_end};
ghost use Rattle.asl_choice.specs.View.{pattern_view};
ghost use Rattle.asl_choice.specs.Walking.{WalksTo};

use crate::PatternPart;

/// Whether the text can be cut into parts, one for each element of the pattern: a byte is itself, a star any text.
///
/// Nothing is cut: a walk along both has one point to go back to, behind the last star.
pub(crate) fn matches(pattern: &[PatternPart], text: &[u8]) -> bool
    ensures { result ≡ is_cut_by (pattern_view pattern.now) text.now }
{
    match walk(pattern, text) {
        WalkEnd::Matched => true,
        WalkEnd::Stuck => false,
        WalkEnd::AtStar(parts, rest) => some_end_matches(parts, rest),
    }
}

/// Whether the text itself, or what is left behind some front of it, matches the pattern.
fn some_end_matches(pattern: &[PatternPart], text: &[u8]) -> bool
    ensures { result ≡ some_end (is_cut_by (pattern_view pattern.now)) text.now }
{
    let mut parts = pattern;
    let mut rest = text;
    loop {
        match walk(parts, rest) {
            WalkEnd::Matched => return true,
            WalkEnd::AtStar(behind, left) => {
                parts = behind;
                rest = left;
            }
            WalkEnd::Stuck => {
                let Some((_, further)) = rest.split_first() else {
                    return false;
                };
                rest = further;
            }
        }
    }
}

/// What comes of walking along the bytes of a pattern and of a text together.
enum WalkEnd<'w> {
    /// Both came to their end.
    Matched,
    /// A byte differs, or one came to its end and the other didn't.
    Stuck,
    /// A star came in the pattern: what stands behind it, and what is left of the text.
    AtStar(&'w [PatternPart], &'w [u8]),
}

/// Walks along the bytes of the pattern up to its first star.
fn walk<'w>(pattern: &'w [PatternPart], text: &'w [u8]) -> WalkEnd<'w>
    ensures { WalksTo result pattern.now text.now }
{
    let mut rest = text;
    for (place, part) in pattern.iter().enumerate() {
        match part {
            PatternPart::Star => return WalkEnd::AtStar(&pattern[place + 1..], rest),
            PatternPart::Byte(byte) => {
                let Some((first, further)) = rest.split_first() else {
                    return WalkEnd::Stuck;
                };
                if first != byte {
                    return WalkEnd::Stuck;
                }
                rest = further;
            }
        }
    }
    if rest.is_empty() {
        WalkEnd::Matched
    } else {
        WalkEnd::Stuck
    }
}
