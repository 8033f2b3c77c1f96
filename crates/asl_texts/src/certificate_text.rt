//! The text of a certificate, written as it goes.

ghost use Rattle.std.specs.Prelude.{◌≡◌, ◌<◌, ◌∷◌, ◌++◌, IfOk, IfSome, OnOk, length, pos, string_bytes};
ghost use Rattle.std.specs.List.Sorted.{IsStrictlySortedBy};
ghost use Rattle.std.specs.Map.{keys_of};
ghost use Rattle.std.specs.String.{string_cmp};
ghost use Rattle.json.specs.Token.{begin_array, begin_object};
ghost use Rattle.asl_model.specs.Json.{compact_text};
ghost use Rattle.asl_model.specs.Texts.{ReadsAsCertificate};
ghost use Rattle.asl_model.specs.Tree.{Integer};
ghost use Rattle.asl_model.specs.Written.{version_of};
ghost use Rattle.asl_numbered.specs.Expansion.{AreBelow};
ghost use Rattle.asl_records.specs.Listing.{IsListing, listed_shapes};
ghost use Rattle.asl_records.specs.Numbered.{AreWithin, AreNumbersBelow, AreEntriesBelow, numbered_view};
ghost use Rattle.asl_records.specs.WritingNumbered.{IsReady, spelled_over};
ghost use Rattle.asl_tree.specs.Written.{tree_tokens, ReadsBack};
ghost use Rattle.asl_texts.specs.CertificateText.{IsShallow, written_as};
ghost use Rattle.asl_texts.specs.CertificateTokens.{IsKept, StaysKept, NumbersReadBack, ItemReadsBack, StatesReadBack, branches_tokens, certificate_tree, item_tokens, list_tokens, listed_if, listed_numbers, listed_tokens, stands_for, state_tree, states_tokens};

use crate::spellings::Spellings;
use asl_model::reading_laws::written_records_are_read_back;
use asl_records::{Listing, NumberedCertificate, ShapeWriter, StateNumbers};
use asl_tree::OutOfMemory;
use json::Writer;
use std::alloc::{AllocError, Global};
use std::collections::BTreeMap;

/// The compact text of what is written of a certificate. Where `numbered` is true each distinct shape of lists or objects is
/// listed once in it, in `shapes`, and stands everywhere as a reference; otherwise each shape is spelled out wherever it
/// stands. It reads as the certificate, unless this one spelled out nests deeper than JSON is read. Refuses only where an
/// allocation was refused.
///
/// The tree of a shape is made where it is written, and let go before another one.
pub fn text_of_certificate(
    alloc: Global,
    certificate: &NumberedCertificate,
    numbered: bool,
) -> Result<String, OutOfMemory>
    requires within { AreWithin certificate.now }
    ensures text { IfOk result (λ text. string_bytes text
        ≡ compact_text (written_as numbered (numbered_view certificate.now))) }
    ensures reads_back { IfOk result (λ text. IsShallow (numbered_view certificate.now)
        → ReadsAsCertificate (string_bytes text) (numbered_view certificate.now)) }
{
    certificate.shapes.are_proper();
    written_records_are_read_back();
    let listing = list_shapes(alloc, certificate, numbered)?;
    let shapes = ShapeWriter::new(alloc, &certificate.shapes, &listing);
    let mut writer = Writer::new(Vec::new(alloc));
    write_certificate(&mut writer, shapes, certificate)?;
    let Ok(text) = String::from_utf8(writer.into_inner()) else {
        unreachable!()
    };
    Ok(text)
}

/// The list of the certificate's shapes, where one is asked, or one without any of them.
fn list_shapes(
    alloc: Global,
    certificate: &NumberedCertificate,
    numbered: bool,
) -> Result<Listing, OutOfMemory>
    requires within { AreWithin certificate.now }
    ensures listing { IfOk result (IsListing certificate.now.shapes) }
    ensures listed { IfOk result (λ listing. listed_shapes certificate.now.shapes listing
        ≡ listed_if numbered (numbered_view certificate.now)) }
{
    if numbered {
        Listing::of(alloc, certificate)
    } else {
        Listing::new(alloc, &certificate.shapes)
    }
}

/// The certificate.
fn write_certificate(
    writer: &mut Writer,
    shapes: ShapeWriter<'_>,
    certificate: &NumberedCertificate,
) -> Result<(), OutOfMemory>
    requires within { AreWithin certificate.now }
    requires ready { IsReady shapes }
    requires table { shapes.shapes.now ≡ certificate.now.shapes }
    ensures before { writer.new.before ≡ writer.old.before }
    ensures tokens { OnOk result (writer.new.tokens ≡ writer.old.tokens
        ++ tree_tokens (certificate_tree shapes.entry (numbered_view certificate.now))) }
    ensures reads_back { OnOk result
        (ReadsBack (certificate_tree shapes.entry (numbered_view certificate.now))) }
{
    let mut spellings = Spellings::new(shapes);
    writer.begin_object()?;
    writer.key("output")?;
    spellings.write(writer, certificate.output)?;
    write_shapes(writer, shapes)?;
    writer.key("states")?;
    write_states(writer, &mut spellings, &certificate.states)?;
    writer.key("version")?;
    write_version(writer, certificate)?;
    writer.end_object()?;
    Ok(())
}

/// The certificate's version.
fn write_version(writer: &mut Writer, certificate: &NumberedCertificate) -> Result<(), AllocError>
    ensures before { writer.new.before ≡ writer.old.before }
    ensures tokens { OnOk result (writer.new.tokens ≡ writer.old.tokens
        ++ tree_tokens (Integer (pos (version_of (numbered_view certificate.now))))) }
{
    writer.i64(certificate.version())
}

/// `shapes`, where any are listed.
fn write_shapes(writer: &mut Writer, shapes: ShapeWriter<'_>) -> Result<(), OutOfMemory>
    requires ready { IsReady shapes }
    ensures before { writer.new.before ≡ writer.old.before }
    ensures tokens { OnOk result (writer.new.tokens
        ≡ writer.old.tokens ++ listed_tokens shapes.entry (listed_numbers shapes.entry)) }
    ensures read_back { OnOk result
        (NumbersReadBack (spelled_over shapes.entry) shapes.entry (listed_numbers shapes.entry)) }
{
    if !shapes.listed().is_empty() {
        writer.key("shapes")?;
        write_listed(writer, shapes)?;
    }
    Ok(())
}

/// The list of the listed shapes.
fn write_listed(writer: &mut Writer, shapes: ShapeWriter<'_>) -> Result<(), OutOfMemory>
    requires ready { IsReady shapes }
    ensures before { writer.new.before ≡ writer.old.before }
    ensures tokens { OnOk result (writer.new.tokens ≡ writer.old.tokens ++ begin_array
        ∷ list_tokens (spelled_over shapes.entry) shapes.entry (listed_numbers shapes.entry)) }
    ensures read_back { OnOk result
        (NumbersReadBack (spelled_over shapes.entry) shapes.entry (listed_numbers shapes.entry)) }
{
    writer.begin_array()?;
    for number in shapes.listed() {
        let tree = shapes.write_over(*number)?;
        asl_tree::write(writer, &tree)?;
    }
    writer.end_array()?;
    Ok(())
}

/// The object of the states, each under its name.
fn write_states(
    writer: &mut Writer,
    spellings: &mut Spellings,
    states: &BTreeMap<String, StateNumbers>,
) -> Result<(), OutOfMemory>
    requires ready { IsReady spellings.old.shapes }
    requires below { AreEntriesBelow (length spellings.old.shapes.shapes.now) states.now.entries }
    requires kept { IsKept spellings.old }
    ensures before { writer.new.before ≡ writer.old.before }
    ensures kept { StaysKept spellings.old spellings.new }
    ensures tokens { OnOk result (writer.new.tokens ≡ writer.old.tokens
        ++ begin_object ∷ states_tokens spellings.old.shapes states.now.entries) }
    ensures read_back { OnOk result (StatesReadBack spellings.old.shapes states.now.entries) }
    ensures in_order { OnOk result (IsStrictlySortedBy string_cmp (keys_of states.now.entries)) }
{
    writer.begin_object()?;
    for (name, state) in states.iter() {
        writer.key(name)?;
        write_state(writer, spellings, state)?;
    }
    writer.end_object()?;
    Ok(())
}

/// The entry of a state.
fn write_state(
    writer: &mut Writer,
    spellings: &mut Spellings,
    state: &StateNumbers,
) -> Result<(), OutOfMemory>
    requires ready { IsReady spellings.old.shapes }
    requires below { AreNumbersBelow (length spellings.old.shapes.shapes.now) state.now }
    requires kept { IsKept spellings.old }
    ensures before { writer.new.before ≡ writer.old.before }
    ensures kept { StaysKept spellings.old spellings.new }
    ensures tokens { OnOk result (writer.new.tokens
        ≡ writer.old.tokens ++ tree_tokens (state_tree spellings.old.shapes state.now)) }
    ensures reads_back { OnOk result (ReadsBack (state_tree spellings.old.shapes state.now)) }
{
    writer.begin_object()?;
    write_branches(writer, spellings, &state.branches)?;
    writer.key("input")?;
    spellings.write(writer, state.input)?;
    write_item(writer, spellings, state.item)?;
    writer.key("output")?;
    spellings.write(writer, state.output)?;
    writer.end_object()?;
    Ok(())
}

/// `branches`, where there are any.
fn write_branches(
    writer: &mut Writer,
    spellings: &mut Spellings,
    branches: &[usize],
) -> Result<(), OutOfMemory>
    requires ready { IsReady spellings.old.shapes }
    requires below { AreBelow (length spellings.old.shapes.shapes.now) branches.now }
    requires kept { IsKept spellings.old }
    ensures before { writer.new.before ≡ writer.old.before }
    ensures kept { StaysKept spellings.old spellings.new }
    ensures tokens { OnOk result (writer.new.tokens
        ≡ writer.old.tokens ++ branches_tokens spellings.old.shapes branches.now) }
    ensures read_back { OnOk result
        (NumbersReadBack (stands_for spellings.old.shapes) spellings.old.shapes branches.now) }
{
    if !branches.is_empty() {
        writer.key("branches")?;
        write_list(writer, spellings, branches)?;
    }
    Ok(())
}

/// The list of what stands for the shapes.
fn write_list(
    writer: &mut Writer,
    spellings: &mut Spellings,
    numbers: &[usize],
) -> Result<(), OutOfMemory>
    requires ready { IsReady spellings.old.shapes }
    requires below { AreBelow (length spellings.old.shapes.shapes.now) numbers.now }
    requires kept { IsKept spellings.old }
    ensures before { writer.new.before ≡ writer.old.before }
    ensures kept { StaysKept spellings.old spellings.new }
    ensures tokens { OnOk result (writer.new.tokens ≡ writer.old.tokens ++ begin_array
        ∷ list_tokens (stands_for spellings.old.shapes) spellings.old.shapes numbers.now) }
    ensures read_back { OnOk result
        (NumbersReadBack (stands_for spellings.old.shapes) spellings.old.shapes numbers.now) }
{
    writer.begin_array()?;
    for number in numbers {
        spellings.write(writer, *number)?;
    }
    writer.end_array()?;
    Ok(())
}

/// `item`, where there is one.
fn write_item(
    writer: &mut Writer,
    spellings: &mut Spellings,
    item: Option<usize>,
) -> Result<(), OutOfMemory>
    requires ready { IsReady spellings.old.shapes }
    requires below { IfSome item (λ n. n < length spellings.old.shapes.shapes.now) }
    requires kept { IsKept spellings.old }
    ensures before { writer.new.before ≡ writer.old.before }
    ensures kept { StaysKept spellings.old spellings.new }
    ensures tokens { OnOk result (writer.new.tokens
        ≡ writer.old.tokens ++ item_tokens spellings.old.shapes item) }
    ensures read_back { OnOk result (ItemReadsBack spellings.old.shapes item) }
{
    if let Some(number) = item {
        writer.key("item")?;
        spellings.write(writer, number)?;
    }
    Ok(())
}
