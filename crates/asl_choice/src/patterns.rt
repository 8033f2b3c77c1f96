//! Reading the patterns of `StringMatches`.
ghost use Rattle.std.specs.Prelude.{◌≡◌, ◌∷◌, ◌≤◌, length, None, Some, Err, IfErr, IfOk, IfSome, MatchOption, option_map};
ghost use Rattle.asl_model.specs.RuleSpelling as model;
ghost use Rattle.asl_choice.specs.Refusal.{Tells, missing};
ghost use Rattle.asl_choice.specs.View.{part_view, pattern_view};
ghost use Rattle.asl_choice.specs.declared.refusal.RuleRefusal.{RuleRefusal};

use crate::{PatternPart, RuleRefusal};
use std::alloc::Global;

/// The pattern that the text spells: `*` is a star, and a backslash stands before a star or a backslash that is itself.
pub(crate) fn read_pattern(alloc: Global, text: &[u8]) -> Result<Vec<PatternPart>, RuleRefusal>
    ensures pattern { IfOk result
        (λ parts. model.pattern_of text.now ≡ Some (pattern_view parts.items)) }
    ensures of_text { ¬ (result ≡ Err RuleRefusal.NotWhole) }
    ensures refused { IfErr result
        (λ e. Tells e (missing model.BadPattern (model.pattern_of text.now))) }
{
    let mut parts = Vec::new(alloc);
    let mut rest = text;
    while let Some((first, others)) = rest.split_first() {
        let Some((part, further)) = cut_part(*first, others) else {
            return Err(RuleRefusal::BadPattern);
        };
        parts.push(part)?;
        rest = further;
    }
    Ok(parts)
}

/// The first element of the pattern that a text with that first byte spells, and what is behind it; `None` where the
/// byte is a backslash and neither a star nor a backslash follows.
fn cut_part(first: u8, others: &[u8]) -> Option<(PatternPart, &[u8])>
    ensures cases { MatchOption result (model.pattern_of (first ∷ others.now) ≡ None)
        (λ c. model.pattern_of (first ∷ others.now)
        ≡ option_map (λ parts. part_view c.0 ∷ parts) (model.pattern_of c.1.now)) }
    ensures shorter { IfSome result (λ c. length c.1.now ≤ length others.now) }
{
    if first == b'\\' {
        return match others.split_first() {
            Some((escaped, further)) if *escaped == b'*' || *escaped == b'\\' => {
                Some((PatternPart::Byte(*escaped), further))
            }
            _ => None,
        };
    }
    if first == b'*' {
        return Some((PatternPart::Star, others));
    }
    Some((PatternPart::Byte(first), others))
}
