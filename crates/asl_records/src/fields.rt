//! The fields of a record, and of its entries.

ghost use Rattle.std.specs.Prelude.{◌≡◌, List, [], ◌∷◌, map, true, false, Option, Some, None, option_map, IfOk, IfErr, IfSome, OnOk, codes};
ghost use Rattle.std.specs.List.{Contains};
ghost use Rattle.asl_model.specs.ShapeSpelling.{is_among};
ghost use Rattle.asl_model.specs.Records as model;
ghost use Rattle.asl_model.specs.Records.{Reading, RecordRow, RecordComplaint, BadShape, EntriesValue, declared_reading, misfits, object_complaints, shape_from};
ghost use Rattle.asl_model.specs.Tree.{Object};
ghost use Rattle.asl_shape.specs.View.{view as shape_view};
ghost use Rattle.asl_shape.specs.Refusal.{fault_named};
ghost use Rattle.asl_tree.specs.View.{view, entries_view};
ghost use Rattle.asl_records.specs.View.{record_fault_view};
ghost use Rattle.asl_records.specs.Parts.{TellsOneOf, complaint_of, field_complaints, foreign_complaints, shape_row, shape_there, tree_complaints, tree_shape};
ghost use Rattle.asl_records.specs.Proper.{IsProper};
ghost use Rattle.asl_records.specs.Values.{as_members, as_value, value_in, value_there};

use crate::refusals::{ReadFault, RecordFault};
use asl_shape::{Shape, ShapeRefusal};
use asl_tree::Tree;
use std::alloc::Global;
use std::collections::BTreeMap;

/// Reads the fields of a record, which has an empty name, or of its entry of that name. What is refused is told with
/// the name.
#[derive(Clone, Copy, Drop)]
pub(crate) struct Reader<'n> {
    pub(crate) alloc: Global,
    pub(crate) name: &'n str,
    /// Whether lists of types may stand in the shapes of a certificate; in declared shapes they may.
    pub(crate) several: bool,
    /// The numbers of the shapes that references mean, where a certificate lists shapes.
    pub(crate) listed: Option<&'n [usize]>,
}

impl Reader<'_> {
    /// The fields of the record, or of its entry.
    pub(crate) fn fields<'t>(&self, tree: &'t Tree) -> Result<&'t BTreeMap<String, Tree>, ReadFault>
        ensures fields { IfOk result
            (λ fields. view tree.now ≡ Object (entries_view fields.now.entries)) }
        ensures refused { IfErr result
            (λ fault. (reading : Reading) (rows : List RecordRow) → TellsOneOf
            (object_complaints reading self.now.name.now rows (as_value (view tree.now))) fault) }
    {
        match tree {
            Tree::Object(fields) => Ok(fields),
            Tree::Null | Tree::Bool(_) | Tree::Int(_) | Tree::Text(_) | Tree::List(_) => {
                Err(self.refuse(RecordFault::NotObject, ""))
            }
        }
    }

    /// Checks that each field is one of those known.
    pub(crate) fn check_fields(
        &self,
        fields: &BTreeMap<String, Tree>,
        known: &[&str],
    ) -> Result<(), ReadFault>
        ensures right { OnOk result (foreign_complaints self.now.name.now
            (map (λ field. field.now) known.now)
            (as_members (entries_view fields.now.entries)) ≡ []) }
        ensures refused { IfErr result (TellsOneOf (foreign_complaints self.now.name.now
            (map (λ field. field.now) known.now)
            (as_members (entries_view fields.now.entries)))) }
    {
        for (field, _) in fields.iter() {
            if !is_known(field, known) {
                return Err(self.refuse(RecordFault::UnknownField, field));
            }
        }
        Ok(())
    }

    /// The shape of a field that has to be there.
    pub(crate) fn required_shape(
        &self,
        field: &'static str,
        fields: &BTreeMap<String, Tree>,
    ) -> Result<Shape, ReadFault>
        ensures right { OnOk result (field_complaints declared_reading self.now.name.now
            (shape_row field.now true) (value_in field.now fields.now.entries) ≡ []) }
        ensures shape { IfOk result
            (λ shape. shape_view shape ≡ shape_there None (value_in field.now fields.now.entries)) }
        ensures proper { IfOk result IsProper }
        ensures refused { IfErr result
            (TellsOneOf (field_complaints declared_reading self.now.name.now
            (shape_row field.now true) (value_in field.now fields.now.entries))) }
    {
        match stated(fields, field) {
            Some(tree) => self.read_shape(field, tree),
            None => Err(self.refuse(RecordFault::MissingField, field)),
        }
    }

    /// The shape of a field that may be there.
    pub(crate) fn optional_shape(
        &self,
        field: &'static str,
        fields: &BTreeMap<String, Tree>,
    ) -> Result<Option<Shape>, ReadFault>
        ensures right { OnOk result (field_complaints declared_reading self.now.name.now
            (shape_row field.now false) (value_in field.now fields.now.entries) ≡ []) }
        ensures shape { IfOk result (λ shape. option_map shape_view shape
            ≡ option_map (shape_from None) (value_in field.now fields.now.entries)) }
        ensures proper { IfOk result (λ shape. IfSome shape IsProper) }
        ensures refused { IfErr result
            (TellsOneOf (field_complaints declared_reading self.now.name.now
            (shape_row field.now false) (value_in field.now fields.now.entries))) }
    {
        match stated(fields, field) {
            Some(tree) => match self.read_shape(field, tree) {
                Ok(shape) => Ok(Some(shape)),
                Err(fault) => Err(fault),
            },
            None => Ok(None),
        }
    }

    /// The shape that a field's tree stands for.
    fn read_shape(&self, field: &str, tree: &Tree) -> Result<Shape, ReadFault>
        ensures right { OnOk result (tree_complaints declared_reading self.now.name.now field.now
            (view tree.now) ≡ []) }
        ensures shape { IfOk result (λ shape. shape_view shape ≡ tree_shape None (view tree.now)) }
        ensures proper { IfOk result IsProper }
        ensures refused { IfErr result (TellsOneOf
            (tree_complaints declared_reading self.now.name.now field.now (view tree.now))) }
    {
        match asl_shape::read(self.alloc, tree) {
            Ok(shape) => Ok(shape),
            Err(refusal) => Err(self.no_shape(refusal, field)),
        }
    }

    /// What is told of a field whose tree is refused as a shape.
    pub(crate) fn no_shape(&self, refusal: ShapeRefusal, field: &str) -> ReadFault
        ensures { (wrong : List RecordComplaint) → IfSome (fault_named refusal)
            (λ fault. Contains wrong (complaint_of self.now.name.now field.now (BadShape fault)))
            → TellsOneOf wrong result }
    {
        match refusal {
            ShapeRefusal::NotAShape
            | ShapeRefusal::Keyword
            | ShapeRefusal::BadType
            | ShapeRefusal::MinItems => self.refuse(RecordFault::BadShape(refusal), field),
            ShapeRefusal::OutOfMemory => ReadFault::OutOfMemory,
        }
    }

    /// A fault at a field, or out of memory where there is none for the names.
    pub(crate) fn refuse(&self, fault: RecordFault, field: &str) -> ReadFault
        ensures { (f : model.RecordFault) → record_fault_view fault ≡ Some f
            → TellsOneOf (complaint_of self.now.name.now field.now f ∷ []) result }
    {
        ReadFault::record(self.alloc, fault, self.name, field)
    }
}

/// The entries in a field of the record.
pub(crate) fn entries<'t>(
    alloc: Global,
    field: &'static str,
    tree: &'t Tree,
) -> Result<&'t BTreeMap<String, Tree>, ReadFault>
    ensures entries { IfOk result
        (λ entries. view tree.now ≡ Object (entries_view entries.now.entries)) }
    ensures refused { IfErr result (TellsOneOf (map (complaint_of [] field.now)
        (misfits declared_reading EntriesValue (as_value (view tree.now))))) }
{
    match tree {
        Tree::Object(entries) => Ok(entries),
        Tree::Null | Tree::Bool(_) | Tree::Int(_) | Tree::Text(_) | Tree::List(_) => {
            Err(ReadFault::record(alloc, RecordFault::WrongKind, "", field))
        }
    }
}

/// Whether a field is one of those known.
fn is_known(field: &str, known: &[&str]) -> bool
    ensures { result ≡ is_among field.now (map (λ name. name.now) known.now) }
{
    for name in known {
        if *name == field {
            return true;
        }
    }
    false
}

/// What stands in a field.
pub(crate) fn stated<'t>(fields: &'t BTreeMap<String, Tree>, field: &str) -> Option<&'t Tree>
    ensures { value_there result ≡ value_in field.now fields.now.entries }
{
    fields.get(field)
}
