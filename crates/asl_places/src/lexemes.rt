//! Where the strings, numbers and words of a text end.
ghost use Rattle.std.specs.Prelude.{◌<◌, ◌≤◌, ◌+◌, IfErr, IfOk, length};

use crate::faults::{Fault, FaultKind, Wanted};

/// The words of JSON.
const WORDS: [&[u8]; 3] = [b"true", b"false", b"null"];

/// The byte behind the word that begins at the byte.
pub(crate) fn behind_word(text: &[u8], start: usize) -> Result<usize, Fault>
    requires { start < length text.now }
    ensures { IfErr result (λ fault. fault.byte ≤ length text.now) }
{
    for word in WORDS {
        if text[start..].starts_with(word) {
            return Ok(start.saturating_add(word.len()));
        }
    }
    Err(Fault::at(start, FaultKind::Word))
}

/// The byte behind the number that begins at the byte.
pub(crate) fn behind_number(text: &[u8], start: usize) -> Result<usize, Fault>
    requires { start < length text.now }
    ensures { IfErr result (λ fault. fault.byte ≤ length text.now) }
{
    let whole = behind_one_of(text, start, b"-");
    let fraction = behind_digits(text, whole)?;
    if fraction > whole + 1 && text[whole] == b'0' {
        return Err(Fault::at(whole, FaultKind::LeadingZero));
    }
    let exponent = match behind_one_of(text, fraction, b".") {
        point if point > fraction => behind_digits(text, point)?,
        _ => fraction,
    };
    match behind_one_of(text, exponent, b"eE") {
        letter if letter > exponent => behind_digits(text, behind_one_of(text, letter, b"+-")),
        _ => Ok(exponent),
    }
}

/// The byte behind the digits that begin at the byte, of which there is one at least.
fn behind_digits(text: &[u8], start: usize) -> Result<usize, Fault>
    requires { start ≤ length text.now }
    ensures ok { IfOk result (λ behind. (start < behind) × (behind ≤ length text.now)) }
    ensures err { IfErr result (λ fault. fault.byte ≤ length text.now) }
{
    let many = text[start..]
        .iter()
        .take_while(|byte| byte.is_ascii_digit())
        .count();
    if many == 0 {
        return Err(Fault::wanted(start, Wanted::Digit));
    }
    Ok(start + many)
}

/// The byte behind the one at the offset, where it is one of those; else the offset.
fn behind_one_of(text: &[u8], start: usize, bytes: &[u8]) -> usize
    requires { start ≤ length text.now }
    ensures { (start ≤ result) × (result ≤ start + 1) × (result ≤ length text.now) }
{
    match text.get(start) {
        Some(byte) if bytes.contains(byte) => start + 1,
        _ => start,
    }
}

/// The byte behind the string that begins at the byte.
pub(crate) fn behind_string(text: &[u8], start: usize) -> Result<usize, Fault>
    requires { start < length text.now }
    ensures { IfErr result (λ fault. fault.byte ≤ length text.now) }
{
    let mut next = start + 1;
    for at in start..text.len() {
        if at < next {
            continue;
        }
        match text[at] {
            b'"' => return Ok(at + 1),
            b'\\' => next = behind_escape(text, at)?,
            b'\n' | b'\r' => return Err(Fault::at(at, FaultKind::LineBreak)),
            byte if byte < 32 => return Err(Fault::at(at, FaultKind::Control)),
            _ => {}
        }
    }
    Err(Fault::at(text.len(), FaultKind::OpenString))
}

/// The byte behind the escape that begins at the byte; of a surrogate pair behind both.
fn behind_escape(text: &[u8], start: usize) -> Result<usize, Fault>
    requires { start < length text.now }
    ensures { IfErr result (λ fault. fault.byte ≤ length text.now) }
{
    match text.get(start + 1) {
        Some(b'u') => behind_unicode(text, start),
        Some(b'"' | b'\\' | b'/' | b'b' | b'f' | b'n' | b'r' | b't') => Ok(start.saturating_add(2)),
        Some(_) => Err(Fault::at(start, FaultKind::Escape)),
        None => Err(Fault::at(text.len(), FaultKind::OpenString)),
    }
}

/// The byte behind the escape by code units that begins at the byte; of a surrogate pair behind both.
fn behind_unicode(text: &[u8], start: usize) -> Result<usize, Fault>
    requires { start < length text.now }
    ensures { IfErr result (λ fault. fault.byte ≤ length text.now) }
{
    let first = unit_at(text, start)?;
    let behind = start.saturating_add(6);
    match first {
        0xd800..=0xdbff => {}
        0xdc00..=0xdfff => return Err(Fault::at(start, FaultKind::Surrogate)),
        _ => return Ok(behind),
    }
    match text.get(behind..) {
        Some([b'\\', b'u', ..]) => match unit_at(text, behind)? {
            0xdc00..=0xdfff => Ok(behind.saturating_add(6)),
            _ => Err(Fault::at(start, FaultKind::Surrogate)),
        },
        Some([] | [b'\\']) | None => Err(Fault::at(text.len(), FaultKind::OpenString)),
        Some(_) => Err(Fault::at(start, FaultKind::Surrogate)),
    }
}

/// The code unit of the escape that begins at the byte.
fn unit_at(text: &[u8], start: usize) -> Result<u32, Fault>
    requires { start < length text.now }
    ensures { IfErr result (λ fault. fault.byte ≤ length text.now) }
{
    let digits = text.get(start.saturating_add(2)..).unwrap_or(&[]);
    let mut unit = 0;
    for at in 0..4 {
        let Some(byte) = digits.get(at) else {
            return Err(Fault::at(text.len(), FaultKind::OpenString));
        };
        let Some(digit) = char::from(*byte).to_digit(16) else {
            return Err(Fault::at(start, FaultKind::Escape));
        };
        unit = (unit << 4) | digit;
    }
    Ok(unit)
}
