//! Texts with the escapes that they need where they stand.
ghost use Rattle.std.specs.Prelude.{◌≡◌, Some, option_map};
ghost use Rattle.std.specs.Fmt.{WritesOnOk};
ghost use Rattle.asl_results.specs.Junit.{allowed, escape_of, in_xml, is_forbidden, xml_char};
ghost use Rattle.asl_results.specs.Line.{in_line, line_char, long_escape, needs_escape, short_escape};

use std::fmt;

/// A text as it stands in a line: a character that breaks lines, or is a control character, stands escaped as in a JSON
/// text.
#[derive(Clone, Copy)]
pub(crate) struct InLine<'a>(pub(crate) &'a str);

impl fmt::Display for InLine<'_> {
    ghost output = { λ t. Some (in_line t.0.now) };

    fn fmt<W: fmt::Write>(&self, f: &mut fmt::Formatter<W>) -> fmt::Result {
        write_in_line(f, self.0)
    }
}

/// Writes a text as it stands in a line.
fn write_in_line<W: fmt::Write>(f: &mut fmt::Formatter<W>, text: &str) -> fmt::Result
    ensures { WritesOnOk W.write_str_gives f.old result (in_line text.now) f.new }
{
    for c in text.chars() {
        write_character(f, c)?;
    }
    Ok(())
}

/// Writes a character as it stands in a line.
fn write_character<W: fmt::Write>(f: &mut fmt::Formatter<W>, c: char) -> fmt::Result
    ensures { WritesOnOk W.write_str_gives f.old result (line_char c) f.new }
{
    match short_escape(c) {
        Some(escape) => f.write_str(escape),
        None => write_long(f, c),
    }
}

/// The short escape of a character, where it has one.
#[tactic(auto, unfolding(crate::specs::Line::short_escape))]
fn short_escape(c: char) -> Option<&'static str>
    ensures { option_map (λ escape. escape.now) result ≡ short_escape c }
{
    match c {
        '\n' => Some("\\n"),
        '\r' => Some("\\r"),
        '\t' => Some("\\t"),
        _ => None,
    }
}

/// Whether a character breaks lines, or is a control character.
fn needs_escape(c: char) -> bool
    ensures { result ≡ needs_escape c }
{
    matches!(c, '\0'..='\u{1f}' | '\u{7f}'..='\u{9f}' | '\u{2028}' | '\u{2029}')
}

/// Writes a character, by its number where it needs an escape.
#[tactic(auto, using(crate::proofs::Digits::padded_to_four), unfolding(crate::specs::Line::long_escape))]
fn write_long<W: fmt::Write>(f: &mut fmt::Formatter<W>, c: char) -> fmt::Result
    ensures { WritesOnOk W.write_str_gives f.old result (long_escape c) f.new }
{
    if needs_escape(c) {
        let code = u32::from(c);
        write!(f, "\\u{code:04x}")
    } else {
        f.write_char(c)
    }
}

/// Where in an XML document a text stands.
#[derive(Clone, Copy)]
pub(crate) enum Part {
    Content,
    /// A reader takes line breaks and tabs in an attribute for spaces, but where they are escaped.
    Attribute,
}

/// A text with the escapes that it needs there in XML.
#[derive(Clone, Copy)]
pub(crate) struct InXml<'a>(pub(crate) Part, pub(crate) &'a str);

impl fmt::Display for InXml<'_> {
    ghost output = { λ t. Some (in_xml t.0 t.1.now) };

    fn fmt<W: fmt::Write>(&self, f: &mut fmt::Formatter<W>) -> fmt::Result {
        write_in_xml(f, self.0, self.1)
    }
}

/// Writes a text with the escapes that it needs there in XML.
fn write_in_xml<W: fmt::Write>(f: &mut fmt::Formatter<W>, part: Part, text: &str) -> fmt::Result
    ensures { WritesOnOk W.write_str_gives f.old result (in_xml part text.now) f.new }
{
    for c in text.chars() {
        write_escaped(f, part, c)?;
    }
    Ok(())
}

/// Writes a character with the escape that it needs there in XML.
fn write_escaped<W: fmt::Write>(f: &mut fmt::Formatter<W>, part: Part, c: char) -> fmt::Result
    ensures { WritesOnOk W.write_str_gives f.old result (xml_char part c) f.new }
{
    match escape_of(part, c) {
        Some(escape) => f.write_str(escape),
        None => f.write_char(allowed(c)),
    }
}

/// The escape of a character, where it needs one.
fn escape_of(part: Part, c: char) -> Option<&'static str>
    ensures { option_map (λ escape. escape.now) result ≡ escape_of part c }
{
    match (part, c) {
        (_, '&') => Some("&amp;"),
        (_, '<') => Some("&lt;"),
        (_, '>') => Some("&gt;"),
        (_, '\r') => Some("&#13;"),
        (Part::Attribute, '"') => Some("&quot;"),
        (Part::Attribute, '\t') => Some("&#9;"),
        (Part::Attribute, '\n') => Some("&#10;"),
        _ => None,
    }
}

/// The character, or the one that stands for it where XML 1.0 forbids it.
fn allowed(c: char) -> char
    ensures { result ≡ allowed c }
{
    if is_forbidden(c) { '\u{fffd}' } else { c }
}

/// Whether XML 1.0 has no such character, not even escaped.
fn is_forbidden(c: char) -> bool
    ensures { result ≡ is_forbidden c }
{
    match c {
        '\t' | '\n' | '\r' => false,
        '\0'..='\u{1f}' | '\u{fffe}' | '\u{ffff}' => true,
        _ => false,
    }
}
