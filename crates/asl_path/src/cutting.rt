//! Cutting the first segment off the text of a path.
ghost use Rattle.std.specs.Prelude.{◌≡◌, ◌<◌, ◌≤◌, length, option_map, IfOk, IfSome, IsUtf8, IsTrue, MatchOption, false};
ghost use Rattle.std.specs.Char.{is_ascii_digit};
ghost use Rattle.std.specs.Str.Parse.{digits_value};
ghost use Rattle.asl_model.specs.PathSpelling.{after as behind_byte, cut_segment as cut, cut_bracket as cut_behind_bracket, cut_dot_name as cut_name, cut_quoted_name as cut_quotes, cut_index as cut_digits, front_length, is_index};
ghost use Rattle.asl_path.specs.View.{segment_view};

use crate::Segment;
use crate::scanning::Part;
use asl_tree::OutOfMemory;
use std::alloc::Global;

/// The segment that the text begins with, and what is behind it; `None` where it begins with none.
pub(crate) fn cut_segment(alloc: Global, text: &str) -> Result<Option<(Segment, &str)>, OutOfMemory>
    ensures found { IfOk result
        (λ found. option_map (λ c. (segment_view c.0, c.1.now)) found ≡ cut text.now) }
    ensures utf8 { IfOk result (λ found. IfSome found (λ c. IsUtf8 c.1.now)) }
{
    if let Some(rest) = after(b'.', text) {
        return cut_dot_name(alloc, rest);
    }
    match after(b'[', text) {
        Some(rest) => cut_bracket(alloc, rest),
        None => Ok(None),
    }
}

/// The name behind a dot, as long as possible.
fn cut_dot_name(alloc: Global, text: &str) -> Result<Option<(Segment, &str)>, OutOfMemory>
    ensures found { IfOk result
        (λ found. option_map (λ c. (segment_view c.0, c.1.now)) found ≡ cut_name text.now) }
    ensures utf8 { IfOk result (λ found. IfSome found (λ c. IsUtf8 c.1.now)) }
{
    let length = Part::DotName.length_in(text.as_bytes());
    if length == 0 {
        return Ok(None);
    }
    let (name, rest) = text.split_at(length);
    Ok(Some((Segment::Name(String::from_str(alloc, name)?), rest)))
}

/// What stands behind `[`: a name in apostrophes or in quotes, or an index.
fn cut_bracket(alloc: Global, text: &str) -> Result<Option<(Segment, &str)>, OutOfMemory>
    ensures found { IfOk result
        (λ found. option_map (λ c. (segment_view c.0, c.1.now)) found
        ≡ cut_behind_bracket text.now) }
    ensures utf8 { IfOk result (λ found. IfSome found (λ c. IsUtf8 c.1.now)) }
{
    if let Some(rest) = after(b'\'', text) {
        return cut_quoted_name(alloc, b'\'', rest);
    }
    if let Some(rest) = after(b'"', text) {
        return cut_quoted_name(alloc, b'"', rest);
    }
    Ok(cut_index(text))
}

/// The name up to that quote and `]`.
fn cut_quoted_name(
    alloc: Global,
    quote: u8,
    text: &str,
) -> Result<Option<(Segment, &str)>, OutOfMemory>
    requires { quote < 128 }
    ensures found { IfOk result
        (λ found. option_map (λ c. (segment_view c.0, c.1.now)) found ≡ cut_quotes quote text.now) }
    ensures utf8 { IfOk result (λ found. IfSome found (λ c. IsUtf8 c.1.now)) }
{
    let (name, rest) = text.split_at(Part::QuotedName(quote).length_in(text.as_bytes()));
    let Some(rest) = after(quote, rest) else {
        return Ok(None);
    };
    let Some(rest) = after(b']', rest) else {
        return Ok(None);
    };
    Ok(Some((Segment::Name(String::from_str(alloc, name)?), rest)))
}

/// The index up to `]`.
fn cut_index(text: &str) -> Option<(Segment, &str)>
    ensures found { option_map (λ c. (segment_view c.0, c.1.now)) result ≡ cut_digits text.now }
    ensures utf8 { IfSome result (λ c. IsUtf8 c.1.now) }
{
    let length = Part::Digits.length_in(text.as_bytes());
    if text.as_bytes().get(length) != Some(&b']') {
        return None;
    }
    let (digits, rest) = text.split_at(length);
    let index = index_of(digits)?;
    let rest = after(b']', rest)?;
    Some((Segment::Index(index), rest))
}

/// The number that the digits write, where they are an index: not empty, no leading zero, below 2 ^ 32.
fn index_of(digits: &str) -> Option<u32>
    requires { front_length is_ascii_digit digits.now ≡ length digits.now }
    ensures { MatchOption result (is_index digits.now ≡ false)
        (λ n. IsTrue (is_index digits.now) × (n ≡ digits_value 10 digits.now)) }
{
    if digits.len() > 1 && digits.as_bytes()[0] == b'0' {
        return None;
    }
    digits.parse::<u32>().ok()
}

/// What is left of the text behind its first byte, where that is `byte`.
pub(crate) fn after(byte: u8, text: &str) -> Option<&str>
    requires { byte < 128 }
    ensures rest { option_map (λ rest. rest.now) result ≡ behind_byte byte text.now }
    ensures utf8 { IfSome result (λ rest. IsUtf8 rest.now) }
{
    match text.as_bytes() {
        [first, ..] if *first == byte => {
            let (_, rest) = text.split_at(1);
            Some(rest)
        }
        _ => None,
    }
}
