//! Reading words and numbers.
ghost use Rattle.std.specs.Prelude.{◌≡◌, IfSome, IsTrue, IsUtf8};
ghost use Rattle.asl_model.specs.CallSpelling.{cut_negative as cut_behind_minus, is_whole as is_whole_number, negative_of as negative_from, whole_number, literal_argument};
ghost use Rattle.asl_intrinsic.specs.Meaning.{IsPlainWord, number_cut};

use crate::Arg;
use crate::scanning::Part;

/// What the word stands for: null, a truth value, or a number that isn't negative.
pub(crate) fn word_of(word: &str) -> Option<Arg>
    ensures { IsPlainWord (literal_argument word.now) result }
{
    match word {
        "null" => Some(Arg::Null),
        "true" => Some(Arg::Bool(true)),
        "false" => Some(Arg::Bool(false)),
        _ => Some(Arg::Int(number_of(word)?)),
    }
}

/// The number that the digits spell, where they are a whole number that fits.
fn number_of(digits: &str) -> Option<i64>
    ensures { result ≡ whole_number digits.now }
{
    if !is_whole(digits.as_bytes()) {
        return None;
    }
    digits.parse::<i64>().ok()
}

/// Whether the text is `0`, or decimal digits without a leading zero.
fn is_whole(text: &[u8]) -> bool
    ensures { result ≡ is_whole_number text.now }
{
    !text.is_empty()
        && Part::Digits.length_in(text) == text.len()
        && (text.len() == 1 || text[0] != b'0')
}

/// The negative number that the text begins with behind its minus sign, where it fits, and what is behind it.
pub(crate) fn cut_negative(text: &str) -> Option<(i64, &str)>
    ensures number { number_cut result ≡ cut_behind_minus text.now }
    ensures utf8 { IfSome result (λ c. IsUtf8 c.1.now) }
{
    let (digits, rest) = Part::Digits.cut(text);
    if !is_whole(digits.as_bytes()) {
        return None;
    }
    let number = negated(digits)?;
    Some((number, rest))
}

/// The number from 0 down that the digits spell, where it fits.
fn negated(digits: &str) -> Option<i64>
    requires { IsTrue (is_whole_number digits.now) }
    ensures { result ≡ negative_from digits.now }
{
    0i64.checked_sub_unsigned(digits.parse::<u64>().ok()?)
}
