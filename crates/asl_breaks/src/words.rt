//! What is said of a text that is no JSON, or has a number that isn't whole.
use crate::breaks::{Break, Reason, break_of, first_fraction};
use asl_diagnostics::rule_of_text;
use asl_places::{FaultKind, Place, Places, Wanted};
use asl_tree::{OutOfMemory, TreeRefusal};
use std::alloc::Global;

/// Where and why the text is refused as a tree, in words as `RULE: SENTENCE`; nothing where the refusal is want of memory.
/// Refuses only where an allocation was refused.
pub fn refused_at(
    alloc: Global,
    text: &[u8],
    refusal: &TreeRefusal,
) -> Result<Option<(Place, String)>, OutOfMemory> {
    let Some(rule) = rule_of_text(refusal) else {
        return Ok(None);
    };
    let (byte, words) = match refusal {
        TreeRefusal::NotJson => {
            let found = break_of(alloc, text)?;
            (found.byte, found.words(alloc, text)?)
        }
        _ => {
            let words = rule.short.strip_suffix(".").unwrap_or(rule.short);
            (
                first_fraction(alloc, text)?,
                String::from_str(alloc, words)?,
            )
        }
    };
    let place = Places::of(alloc, text)?.place_at(byte);
    Ok(Some((place, format!(in alloc; "{}: {words}", rule.id)?)))
}

impl Break {
    /// Why the text breaks there: a sentence without a period. Refuses only where an allocation was refused.
    pub fn words(&self, alloc: Global, text: &[u8]) -> Result<String, OutOfMemory> {
        let sentence = match self.reason {
            Reason::NoUtf8 => "The text isn't UTF-8 here",
            Reason::TooLarge => "The number is too large",
            Reason::Fault(FaultKind::Wanted(wanted)) if self.byte < text.len() => {
                return Ok(format!(in alloc; "{} is wanted here", words_of(wanted))?);
            }
            Reason::Fault(FaultKind::Wanted(wanted)) => {
                return Ok(format!(in alloc; "{} is wanted where the text ends", words_of(wanted))?);
            }
            Reason::Fault(kind) => sentence_of(kind),
        };
        Ok(String::from_str(alloc, sentence)?)
    }
}

/// What is wanted, in words.
fn words_of(wanted: Wanted) -> &'static str {
    match wanted {
        Wanted::Value => "A value",
        Wanted::ValueOrBracket => "A value or `]`",
        Wanted::Name => "A name in double quotes",
        Wanted::NameOrBrace => "A name in double quotes or `}`",
        Wanted::Colon => "`:`",
        Wanted::CommaOrBrace => "`,` or `}`",
        Wanted::CommaOrBracket => "`,` or `]`",
        Wanted::Digit => "A digit",
        Wanted::Nothing => "The end of the text",
    }
}

/// Why a text can't go on as JSON where nothing else is wanted.
fn sentence_of(kind: FaultKind) -> &'static str {
    match kind {
        FaultKind::Wanted(_) => "Something else is wanted here",
        FaultKind::Word => "A word outside of strings is none of `true`, `false` and `null`",
        FaultKind::LeadingZero => "A number has a zero in front of other digits",
        FaultKind::LineBreak => "A string isn't closed on its line",
        FaultKind::Control => "A string has a control character that isn't written as an escape",
        FaultKind::Escape => "There is no such escape in a string",
        FaultKind::Surrogate => "A string has half of a surrogate pair",
        FaultKind::OpenString => "The text ends within a string",
        FaultKind::TooDeep => "Arrays and objects nest deeper than 127 levels",
        FaultKind::ByteOrderMark => "The text begins with a byte order mark",
    }
}
