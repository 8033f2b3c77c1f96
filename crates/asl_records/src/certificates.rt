//! Reading certificates.

ghost use Rattle.std.specs.Prelude.{◌≡◌, [], map, pos, Some, IfOk, IfErr, OnOk, codes};
ghost use Rattle.std.specs.Ordering.{int_eq};
ghost use Rattle.asl_model.specs.Records.{Reading, VersionValue, StandsForCertificate, certificate_complaints, certificate_from, object_complaints, entries_complaints, entries_from, state_rows, state_from, misfits, version_misfits};
ghost use Rattle.asl_shape.specs.Spelled.{tree_there};
ghost use Rattle.asl_tree.specs.View.{view, entries_view};
ghost use Rattle.asl_numbered.specs.Expansion.{Keeps};
ghost use Rattle.asl_records.specs.Numbered.{AreWithin, numbered_view};
ghost use Rattle.asl_records.specs.Listed.{AreInTable, ForReading};
ghost use Rattle.asl_records.specs.Numbering.{AreStateOf, AreStatesOf};
ghost use Rattle.asl_records.specs.Proper.{IsProperCertificate};
ghost use Rattle.asl_records.specs.View.{certificate_view};
ghost use Rattle.asl_records.specs.Refusal.{IsCertificateRefusal};
ghost use Rattle.asl_records.specs.Parts.{TellsOneOf, complaint_of, certified, certified_complaints, field_complaints, is_number, states_complaints, states_there, version_row};
ghost use Rattle.asl_records.specs.Values.{For, Gives, IsPart, IsValue, as_members, as_value, value_in};

use crate::fields::{Reader, entries, stated};
use crate::listed::read_listed;
use crate::numbering::expand_certificate;
use crate::records::{Certificate, NumberedCertificate, StateNumbers};
use crate::refusals::{ReadFault, RecordFault};
use asl_numbered::Shapes;
use asl_tree::Tree;
use std::alloc::Global;
use std::collections::BTreeMap;

/// The certificate that a tree stands for: of version 1, or of version 2, in which shapes may be of several kinds, with a
/// list of types. Each of its shapes is proper.
///
/// Refuses where a rule is broken, with a fault that stands there, also where it is broken in a listed shape that nothing
/// refers to; and where an allocation was refused. Of a list of types in version 1 the fault is `BadShape` with `BadType`.
pub fn read_certificate(alloc: Global, tree: &Tree) -> Result<Certificate, ReadFault>
    ensures certificate { IfOk result (λ certificate. For (IsValue (view tree.now))
        (λ v. StandsForCertificate v (certificate_view certificate))) }
    ensures proper { IfOk result IsProperCertificate }
    ensures refused { IfErr result
        (λ fault. For (IsValue (view tree.now)) (λ v. IsCertificateRefusal v fault)) }
{
    let numbered = read_numbered(alloc, tree)?;
    Ok(expand_certificate(alloc, &numbered)?)
}

/// The same with its shapes in a table, each distinct one once. The table may have further shapes, such as those that are
/// listed and not referred to.
pub fn read_numbered(alloc: Global, tree: &Tree) -> Result<NumberedCertificate, ReadFault>
    ensures certificate { IfOk result (λ certificate. For (IsValue (view tree.now))
        (λ v. StandsForCertificate v (numbered_view certificate))) }
    ensures within { IfOk result AreWithin }
    ensures refused { IfErr result
        (λ fault. For (IsValue (view tree.now)) (λ v. IsCertificateRefusal v fault)) }
{
    read_record(alloc, tree)
}

/// The same, by the complaints about it.
fn read_record(alloc: Global, tree: &Tree) -> Result<NumberedCertificate, ReadFault>
    ensures right { OnOk result (certificate_complaints (as_value (view tree.now)) ≡ []) }
    ensures certificate { IfOk result
        (λ certificate. numbered_view certificate ≡ certificate_from (as_value (view tree.now))) }
    ensures within { IfOk result AreWithin }
    ensures refused { IfErr result
        (TellsOneOf (certificate_complaints (as_value (view tree.now)))) }
{
    let record = Reader {
        alloc,
        name: "",
        several: false,
        listed: None,
    };
    let fields = record.fields(tree)?;
    record.check_fields(fields, &["version", "shapes", "output", "states"])?;
    let several = read_version(alloc, stated(fields, "version"))?;
    let mut shapes = Shapes::new(alloc);
    let numbers = read_listed(alloc, several, &mut shapes, fields)?;
    let reader = Reader {
        several,
        listed: numbers.as_deref(),
        ..record
    };
    read_parts(reader, shapes, fields)
}

/// The certificate whose output and states stand in these fields, their shapes read so.
fn read_parts(
    reader: Reader<'_>,
    mut shapes: Shapes,
    fields: &BTreeMap<String, Tree>,
) -> Result<NumberedCertificate, ReadFault>
    requires listed { AreInTable shapes reader.listed }
    ensures right { OnOk result (ForReading reader.entry.several shapes reader.entry.listed
        (λ reading. certified_complaints reading
        (as_members (entries_view fields.now.entries)) ≡ [])) }
    ensures certificate { IfOk result
        (λ certificate. ForReading reader.entry.several shapes reader.entry.listed
        (λ reading. numbered_view certificate
        ≡ certified reading.listed (as_members (entries_view fields.now.entries)))) }
    ensures within { IfOk result
        (λ certificate. ForReading reader.entry.several shapes reader.entry.listed
        (λ _. AreWithin certificate)) }
    ensures refused { IfErr result
        (λ fault. ForReading reader.entry.several shapes reader.entry.listed
        (λ reading. TellsOneOf (certified_complaints reading
        (as_members (entries_view fields.now.entries))) fault)) }
{
    let record = Reader { name: "", ..reader };
    let output = record.required_number(&mut shapes, "output", fields)?;
    let states = read_states(reader, &mut shapes, fields)?;
    Ok(NumberedCertificate {
        shapes,
        output,
        states,
    })
}

/// Whether lists of types may stand in a certificate of this version: not in 1, but in 2. There are no others.
///
/// Refused: MissingField where there is none, WrongKind where it is no integer, BadVersion where it is another one; OutOfMemory
/// where an allocation was refused.
pub fn read_version(alloc: Global, version: Option<&Tree>) -> Result<bool, ReadFault>
    ensures right { OnOk result (For (IsPart (tree_there version.entry)) (λ part. (reading : Reading)
        → field_complaints reading [] version_row part ≡ [])) }
    ensures several { IfOk result (λ several. For (IsPart (tree_there version.entry))
        (λ part. several ≡ is_number (pos 2) part)) }
    ensures refused { IfErr result (λ fault. For (IsPart (tree_there version.entry))
        (λ part. (reading : Reading)
        → TellsOneOf (field_complaints reading [] version_row part) fault)) }
{
    match version {
        Some(tree) => several_in(alloc, tree),
        None => Err(ReadFault::record(alloc, RecordFault::MissingField, "", "version")),
    }
}

/// Whether lists of types may stand in a certificate of the version that the tree is.
fn several_in(alloc: Global, tree: &Tree) -> Result<bool, ReadFault>
    ensures right { OnOk result ((reading : Reading)
        → misfits reading VersionValue (as_value (view tree.now)) ≡ []) }
    ensures several { IfOk result
        (λ several. several ≡ is_number (pos 2) (Some (as_value (view tree.now)))) }
    ensures refused { IfErr result (λ fault. (reading : Reading)
        → TellsOneOf (map (complaint_of [] (codes "version"))
        (misfits reading VersionValue (as_value (view tree.now)))) fault) }
{
    match tree {
        Tree::Int(number) => several_of(alloc, number),
        Tree::Null | Tree::Bool(_) | Tree::Text(_) | Tree::List(_) | Tree::Object(_) => {
            Err(ReadFault::record(alloc, RecordFault::WrongKind, "", "version"))
        }
    }
}

/// Whether lists of types may stand in a certificate of the version of that number.
fn several_of(alloc: Global, number: &i64) -> Result<bool, ReadFault>
    ensures right { OnOk result (version_misfits (Some number.now) ≡ []) }
    ensures several { IfOk result (λ several. several ≡ int_eq (pos 2) number.now) }
    ensures refused { IfErr result (TellsOneOf
        (map (complaint_of [] (codes "version")) (version_misfits (Some number.now)))) }
{
    if *number != 1 && *number != 2 {
        return Err(ReadFault::record(alloc, RecordFault::BadVersion, "", "version"));
    }
    Ok(*number == 2)
}

/// The shapes of all states, which stand in the field `states`.
fn read_states(
    reader: Reader<'_>,
    shapes: &mut Shapes,
    fields: &BTreeMap<String, Tree>,
) -> Result<BTreeMap<String, StateNumbers>, ReadFault>
    requires listed { AreInTable shapes.old reader.listed }
    ensures right { OnOk result (ForReading reader.entry.several shapes.old reader.entry.listed
        (λ reading. states_complaints reading
        (value_in (codes "states") fields.now.entries) ≡ [])) }
    ensures states { IfOk result
        (λ states. ForReading reader.entry.several shapes.old reader.entry.listed
        (λ reading. AreStatesOf shapes.new
        (states_there reading.listed (value_in (codes "states") fields.now.entries))
        states.entries)) }
    ensures refused { IfErr result
        (λ fault. ForReading reader.entry.several shapes.old reader.entry.listed
        (λ reading. TellsOneOf (states_complaints reading
        (value_in (codes "states") fields.now.entries)) fault)) }
    ensures keeps { Keeps shapes.old shapes.new }
{
    match stated(fields, "states") {
        Some(states) => read_entries(reader, shapes, entries(reader.alloc, "states", states)?),
        None => Err(ReadFault::record(reader.alloc, RecordFault::MissingField, "", "states")),
    }
}

/// The shapes of the states of these entries.
fn read_entries(
    reader: Reader<'_>,
    shapes: &mut Shapes,
    entries: &BTreeMap<String, Tree>,
) -> Result<BTreeMap<String, StateNumbers>, ReadFault>
    requires listed { AreInTable shapes.old reader.listed }
    ensures right { OnOk result (ForReading reader.entry.several shapes.old reader.entry.listed
        (λ reading. entries_complaints reading state_rows
        (as_members (entries_view entries.now.entries)) ≡ [])) }
    ensures states { IfOk result
        (λ states. ForReading reader.entry.several shapes.old reader.entry.listed
        (λ reading. AreStatesOf shapes.new (entries_from (state_from reading.listed)
        (as_members (entries_view entries.now.entries))) states.entries)) }
    ensures refused { IfErr result
        (λ fault. ForReading reader.entry.several shapes.old reader.entry.listed
        (λ reading. TellsOneOf (entries_complaints reading state_rows
        (as_members (entries_view entries.now.entries))) fault)) }
    ensures keeps { Keeps shapes.old shapes.new }
{
    let mut states = BTreeMap::new(reader.alloc);
    for (name, tree) in entries.iter() {
        let state = read_entry(reader, shapes, name, tree)?;
        let key = name.clone()?;
        drop(states.insert(key, state)?);
    }
    Ok(states)
}

/// The numbers of the shapes of the state of this name, of which a certificate's entry is given. The shapes come into the
/// table, and what is in it stays.
///
/// Refuses where the entry breaks a rule, with a fault that stands there, and where an allocation was refused.
fn read_state(
    reader: Reader<'_>,
    shapes: &mut Shapes,
    name: &str,
    tree: &Tree,
) -> Result<StateNumbers, ReadFault>
    requires listed { AreInTable shapes.old reader.listed }
    ensures right { OnOk result (ForReading reader.entry.several shapes.old reader.entry.listed
        (λ reading. For (IsValue (view tree.now))
        (λ v. object_complaints reading name.now state_rows v ≡ []))) }
    ensures numbers { IfOk result
        (λ state. ForReading reader.entry.several shapes.old reader.entry.listed
        (λ reading. Gives (IsValue (view tree.now)) (state_from reading.listed)
        (λ shapes_of. AreStateOf shapes.new shapes_of state))) }
    ensures refused { IfErr result
        (λ fault. ForReading reader.entry.several shapes.old reader.entry.listed
        (λ reading. For (IsValue (view tree.now))
        (λ v. TellsOneOf (object_complaints reading name.now state_rows v) fault))) }
    ensures keeps { Keeps shapes.old shapes.new }
{
    read_entry(reader, shapes, name, tree)
}

/// The same, by the complaints about it.
fn read_entry(
    reader: Reader<'_>,
    shapes: &mut Shapes,
    name: &str,
    tree: &Tree,
) -> Result<StateNumbers, ReadFault>
    requires listed { AreInTable shapes.old reader.listed }
    ensures right { OnOk result (ForReading reader.entry.several shapes.old reader.entry.listed
        (λ reading. object_complaints reading name.now state_rows
        (as_value (view tree.now)) ≡ [])) }
    ensures numbers { IfOk result
        (λ state. ForReading reader.entry.several shapes.old reader.entry.listed
        (λ reading. AreStateOf shapes.new (state_from reading.listed (as_value (view tree.now)))
        state)) }
    ensures refused { IfErr result
        (λ fault. ForReading reader.entry.several shapes.old reader.entry.listed
        (λ reading. TellsOneOf (object_complaints reading name.now state_rows
        (as_value (view tree.now))) fault)) }
    ensures keeps { Keeps shapes.old shapes.new }
{
    let state = Reader { name, ..reader };
    let fields = state.fields(tree)?;
    state.check_fields(fields, &["input", "output", "branches", "item"])?;
    Ok(StateNumbers {
        input: state.required_number(shapes, "input", fields)?,
        output: state.required_number(shapes, "output", fields)?,
        branches: state.optional_numbers(shapes, "branches", fields)?,
        item: state.optional_number(shapes, "item", fields)?,
    })
}
