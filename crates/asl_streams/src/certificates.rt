//! A certificate read from the tokens of its text.
ghost use Rattle.std.specs.Prelude.{◌≡◌, Some, length, IfOk, IfSome};
ghost use Rattle.serde_json.specs.Data.{Data, Members, object};
ghost use Rattle.serde_json.specs.Read.{read};
ghost use Rattle.asl_model.specs.Records.{StandsForCertificate};
ghost use Rattle.asl_numbered.specs.Expansion.{AreBelow};
ghost use Rattle.asl_records.specs.Numbered.{AreWithin, numbered_view};
ghost use Rattle.asl_streams.specs.Fielded.{AreFields};

use crate::fields::{Fields, next_fields};
use crate::reader::Reader;
use crate::unread::Unread;
use asl_numbered::Shapes;
use asl_records::{NumberedCertificate, read_version};
use asl_tree::OutOfMemory;
use json::{Reader as Tokens, Scratch, Token};
use std::alloc::Global;

/// The certificate that a JSON text stands for, with its shapes in a table, each distinct one once. The table may have
/// further shapes. It is read shape by shape: of the text no more is a tree at a time than a keyword's value in one of them.
/// None where it isn't read so, which says nothing of the text: it may be no certificate, or one in which the list of shapes
/// stands behind the states or comes twice, or a value breaks a rule whose name comes again, or the version is 2 and neither the first nor
/// the last field.
///
/// Refused only where an allocation was refused.
pub fn read_streamed(alloc: Global, text: &str) -> Result<Option<NumberedCertificate>, OutOfMemory>
    ensures certificate { IfOk result (λ found. IfSome found (λ certificate.
        (v : Data) × (read text.now ≡ Some v)
        × StandsForCertificate v (numbered_view certificate))) }
    ensures within { IfOk result (λ found. IfSome found AreWithin) }
{
    match read_tokens(
        alloc,
        begins_with_version_2(text) || ends_with_version_2(text),
        text,
    ) {
        Ok(certificate) => Ok(Some(certificate)),
        Err(Unread::Whole) => Ok(None),
        Err(Unread::OutOfMemory) => Err(OutOfMemory),
    }
}

/// Whether the text is one of an object whose first field is `version`, which is 2 or begins so.
fn begins_with_version_2(text: &str) -> bool {
    let Some(rest) = text.trim_start().strip_prefix('{') else {
        return false;
    };
    let Some(rest) = rest.trim_start().strip_prefix("\"version\"") else {
        return false;
    };
    let Some(rest) = rest.trim_start().strip_prefix(':') else {
        return false;
    };
    rest.trim_start().starts_with('2')
}

/// Whether the text is one of an object whose last field is `version`, which is 2.
fn ends_with_version_2(text: &str) -> bool {
    let Some(rest) = text.trim_end().strip_suffix('}') else {
        return false;
    };
    let Some(rest) = rest.trim_end().strip_suffix('2') else {
        return false;
    };
    let Some(rest) = rest.trim_end().strip_suffix(':') else {
        return false;
    };
    rest.trim_end().ends_with("\"version\"")
}

/// The certificate of these fields, if it is of the version that was expected.
fn certificate_of(
    alloc: Global,
    several: bool,
    mut shapes: Shapes,
    fields: Fields,
) -> Result<NumberedCertificate, Unread>
    requires listed { IfSome fields.listed (λ ns. AreBelow (length shapes) ns.items) }
    ensures certificate { IfOk result (λ certificate. (found : Members)
        → AreFields several shapes found fields
        → StandsForCertificate (object found) (numbered_view certificate)) }
    ensures within { (found : Members) → AreFields several shapes found fields
        → IfOk result AreWithin }
{
    match read_version(alloc, fields.version.as_ref()) {
        Ok(read) if read == several => {}
        _ => return Err(Unread::Whole),
    }
    let (Some(output), Some(states)) = (fields.output, fields.states) else {
        return Err(Unread::Whole);
    };
    let record = Reader {
        alloc,
        several,
        listed: fields.listed.as_deref(),
    };
    let output = output.number(record, &mut shapes)?;
    Ok(NumberedCertificate {
        shapes,
        output,
        states,
    })
}

/// The certificate that a text stands for, where it is of that version.
fn read_tokens(alloc: Global, several: bool, text: &str) -> Result<NumberedCertificate, Unread>
    ensures certificate { IfOk result (λ certificate. (v : Data) × (read text.now ≡ Some v)
        × StandsForCertificate v (numbered_view certificate)) }
    ensures within { IfOk result AreWithin }
{
    let mut scratch = Scratch::new(alloc);
    let mut tokens = Tokens::new(text, &mut scratch)?;
    let Some(Token::BeginObject) = tokens.next() else {
        return Err(Unread::Whole);
    };
    let mut shapes = Shapes::new(alloc);
    let fields = next_fields(alloc, several, &mut tokens, &mut shapes)?;
    if tokens.next().is_some() {
        return Err(Unread::Whole);
    }
    certificate_of(alloc, several, shapes, fields)
}
