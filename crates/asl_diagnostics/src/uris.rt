//! Paths as URIs (RFC 3986).
ghost use Rattle.std.specs.Prelude.{◌≡◌, ◌++◌, IfOk, OnOk, string_bytes};
ghost use Rattle.std.specs.List.{flat_map};
ghost use Rattle.asl_diagnostics.specs.Sarif.{is_unreserved, uri_byte, uri_of};

use asl_tree::OutOfMemory;
use percent_encoding::percent_encode_byte;
use std::alloc::Global;

/// The path as a URI: each byte but letters, digits and `-._~/` as `%` with two digits. A relative path stays relative,
/// without a `./` in front of it; one that begins with `/` is a `file` URI.
pub(crate) fn uri_of(alloc: Global, path: &str) -> Result<String, OutOfMemory>
    ensures { IfOk result (λ text. string_bytes text ≡ uri_of path.now) }
{
    let mut text = String::new(alloc);
    if path.starts_with("/") {
        text.push_str("file://")?;
        push_path(&mut text, path.as_bytes())?;
    } else {
        push_path(
            &mut text,
            path.strip_prefix("./").unwrap_or(path).as_bytes(),
        )?;
    }
    Ok(text)
}

/// Puts the path behind the text, with its escapes.
fn push_path(text: &mut String, path: &[u8]) -> Result<(), OutOfMemory>
    ensures { OnOk result
        (string_bytes text.new ≡ string_bytes text.old ++ flat_map uri_byte path.now) }
{
    for byte in path {
        push_byte(text, *byte)?;
    }
    Ok(())
}

/// Puts a byte behind the text, or its escape.
fn push_byte(text: &mut String, byte: u8) -> Result<(), OutOfMemory>
    ensures { OnOk result (string_bytes text.new ≡ string_bytes text.old ++ uri_byte byte) }
{
    if is_unreserved(byte) {
        text.push(char::from(byte))?;
    } else {
        text.push_str(percent_encode_byte(byte))?;
    }
    Ok(())
}

/// A byte that stands for itself in a path of a URI.
fn is_unreserved(byte: u8) -> bool
    ensures { result ≡ is_unreserved byte }
{
    byte.is_ascii_alphanumeric() || matches!(byte, b'-' | b'.' | b'/' | b'_' | b'~')
}
