//! The shapes in the fields of a certificate, read into a table.

ghost use Rattle.std.specs.Prelude.{◌≡◌, List, [], map, true, false, Some, option_map, Contains, IfOk, IfErr, IfSome, OnOk};
ghost use Rattle.asl_model.specs.Records.{RecordComplaint, ShapesValue, misfits, shape_from, shapes_from};
ghost use Rattle.asl_tree.specs.View.{view, elements_view};
ghost use Rattle.asl_numbered.specs.Expansion.{shape_at, IsNumberOf, Keeps};
ghost use Rattle.asl_numbered.specs.References.{shapes_given, SpellsWith, TellsOf};
ghost use Rattle.asl_records.specs.Listed.{AreInTable, ForReading};
ghost use Rattle.asl_records.specs.Numbering.{AreListOf, IsItemOf};
ghost use Rattle.asl_records.specs.Parts.{TellsOneOf, complaint_of, fault_told, field_complaints, shape_row, shape_there, shapes_complaints, shapes_row, shapes_there, tree_complaints, tree_shape};
ghost use Rattle.asl_records.specs.Values.{as_items, as_value, value_in};

use crate::fields::{Reader, stated};
use crate::refusals::{ReadFault, RecordFault};
use asl_numbered::{NumberedRefusal, Shapes};
use asl_tree::Tree;
use std::collections::BTreeMap;

impl Reader<'_> {
    /// The number of the shape of a field that has to be there.
    pub(crate) fn required_number(
        &self,
        shapes: &mut Shapes,
        field: &'static str,
        fields: &BTreeMap<String, Tree>,
    ) -> Result<usize, ReadFault>
        requires listed { AreInTable shapes.old self.now.listed }
        ensures right { OnOk result (ForReading self.now.several shapes.old self.now.listed
            (λ reading. field_complaints reading self.now.name.now
            (shape_row field.now true) (value_in field.now fields.now.entries) ≡ [])) }
        ensures number { IfOk result
            (λ number. ForReading self.now.several shapes.old self.now.listed
            (λ reading. IsNumberOf shapes.new
            (shape_there reading.listed (value_in field.now fields.now.entries)) number)) }
        ensures refused { IfErr result
            (λ fault. ForReading self.now.several shapes.old self.now.listed
            (λ reading. TellsOneOf (field_complaints reading self.now.name.now
            (shape_row field.now true) (value_in field.now fields.now.entries)) fault)) }
        ensures keeps { Keeps shapes.old shapes.new }
    {
        match stated(fields, field) {
            Some(tree) => self.read_number(shapes, field, tree),
            None => Err(self.refuse(RecordFault::MissingField, field)),
        }
    }

    /// The number of the shape of a field that may be there.
    pub(crate) fn optional_number(
        &self,
        shapes: &mut Shapes,
        field: &'static str,
        fields: &BTreeMap<String, Tree>,
    ) -> Result<Option<usize>, ReadFault>
        requires listed { AreInTable shapes.old self.now.listed }
        ensures right { OnOk result (ForReading self.now.several shapes.old self.now.listed
            (λ reading. field_complaints reading self.now.name.now
            (shape_row field.now false) (value_in field.now fields.now.entries) ≡ [])) }
        ensures number { IfOk result
            (λ number. ForReading self.now.several shapes.old self.now.listed
            (λ reading. IsItemOf shapes.new (option_map (shape_from reading.listed)
            (value_in field.now fields.now.entries)) number)) }
        ensures refused { IfErr result
            (λ fault. ForReading self.now.several shapes.old self.now.listed
            (λ reading. TellsOneOf (field_complaints reading self.now.name.now
            (shape_row field.now false) (value_in field.now fields.now.entries)) fault)) }
        ensures keeps { Keeps shapes.old shapes.new }
    {
        match stated(fields, field) {
            Some(tree) => match self.read_number(shapes, field, tree) {
                Ok(number) => Ok(Some(number)),
                Err(fault) => Err(fault),
            },
            None => Ok(None),
        }
    }

    /// The numbers of the list of shapes of a field that may be there: none where it isn't.
    pub(crate) fn optional_numbers(
        &self,
        shapes: &mut Shapes,
        field: &'static str,
        fields: &BTreeMap<String, Tree>,
    ) -> Result<Vec<usize>, ReadFault>
        requires listed { AreInTable shapes.old self.now.listed }
        ensures right { OnOk result (ForReading self.now.several shapes.old self.now.listed
            (λ reading. field_complaints reading self.now.name.now
            (shapes_row field.now) (value_in field.now fields.now.entries) ≡ [])) }
        ensures numbers { IfOk result
            (λ numbers. ForReading self.now.several shapes.old self.now.listed
            (λ reading. AreListOf shapes.new (shapes_there reading.listed
            (value_in field.now fields.now.entries)) numbers.items)) }
        ensures refused { IfErr result
            (λ fault. ForReading self.now.several shapes.old self.now.listed
            (λ reading. TellsOneOf (field_complaints reading self.now.name.now
            (shapes_row field.now) (value_in field.now fields.now.entries)) fault)) }
        ensures keeps { Keeps shapes.old shapes.new }
    {
        match stated(fields, field) {
            Some(tree) => self.read_list(shapes, field, tree),
            None => Ok(Vec::new(self.alloc)),
        }
    }

    /// The numbers of the shapes that the elements of a field's list stand for.
    fn read_list(
        &self,
        shapes: &mut Shapes,
        field: &str,
        tree: &Tree,
    ) -> Result<Vec<usize>, ReadFault>
        requires listed { AreInTable shapes.old self.now.listed }
        ensures right { OnOk result (ForReading self.now.several shapes.old self.now.listed
            (λ reading. map (complaint_of self.now.name.now field.now)
            (misfits reading ShapesValue (as_value (view tree.now))) ≡ [])) }
        ensures numbers { IfOk result
            (λ numbers. ForReading self.now.several shapes.old self.now.listed
            (λ reading. AreListOf shapes.new
            (shapes_there reading.listed (Some (as_value (view tree.now)))) numbers.items)) }
        ensures refused { IfErr result
            (λ fault. ForReading self.now.several shapes.old self.now.listed
            (λ reading. TellsOneOf (map (complaint_of self.now.name.now field.now)
            (misfits reading ShapesValue (as_value (view tree.now)))) fault)) }
        ensures keeps { Keeps shapes.old shapes.new }
    {
        match tree {
            Tree::List(elements) => self.read_numbers(shapes, field, elements),
            Tree::Null | Tree::Bool(_) | Tree::Int(_) | Tree::Text(_) | Tree::Object(_) => {
                Err(self.refuse(RecordFault::WrongKind, field))
            }
        }
    }

    /// The numbers of the shapes that the elements stand for, one after another.
    fn read_numbers(
        &self,
        shapes: &mut Shapes,
        field: &str,
        elements: &[Tree],
    ) -> Result<Vec<usize>, ReadFault>
        requires listed { AreInTable shapes.old self.now.listed }
        ensures right { OnOk result (ForReading self.now.several shapes.old self.now.listed
            (λ reading. shapes_complaints reading self.now.name.now field.now
            (as_items (elements_view elements.now)) ≡ [])) }
        ensures numbers { IfOk result
            (λ numbers. ForReading self.now.several shapes.old self.now.listed
            (λ reading. AreListOf shapes.new
            (shapes_from reading.listed (as_items (elements_view elements.now)))
            numbers.items)) }
        ensures refused { IfErr result
            (λ fault. ForReading self.now.several shapes.old self.now.listed
            (λ reading. TellsOneOf (shapes_complaints reading self.now.name.now field.now
            (as_items (elements_view elements.now))) fault)) }
        ensures keeps { Keeps shapes.old shapes.new }
    {
        let mut numbers = Vec::with_capacity(self.alloc, elements.len())?;
        for element in elements {
            numbers.push(self.read_number(shapes, field, element)?)?;
        }
        Ok(numbers)
    }

    /// The number of the shape that a field's tree stands for. The shape comes into the table, and what is in it stays.
    ///
    /// Refuses where the tree breaks a rule, with a fault that stands there, and where an allocation was refused.
    pub(crate) fn read_number(
        &self,
        shapes: &mut Shapes,
        field: &str,
        tree: &Tree,
    ) -> Result<usize, ReadFault>
        requires listed { AreInTable shapes.old self.now.listed }
        ensures right { OnOk result (ForReading self.now.several shapes.old self.now.listed
            (λ reading. tree_complaints reading self.now.name.now field.now (view tree.now) ≡ [])) }
        ensures number { IfOk result
            (λ number. ForReading self.now.several shapes.old self.now.listed
            (λ reading. IsNumberOf shapes.new (tree_shape reading.listed (view tree.now)) number)) }
        ensures refused { IfErr result
            (λ fault. ForReading self.now.several shapes.old self.now.listed
            (λ reading. TellsOneOf
            (tree_complaints reading self.now.name.now field.now (view tree.now)) fault)) }
        ensures keeps { Keeps shapes.old shapes.new }
    {
        match self.read_spelled(shapes, tree) {
            Ok(number) => Ok(number),
            Err(refusal) => Err(self.no_number(refusal, field)),
        }
    }

    /// The number of the shape that the tree spells, with lists of types where these may stand.
    fn read_spelled(&self, shapes: &mut Shapes, tree: &Tree) -> Result<usize, NumberedRefusal>
        requires listed { AreInTable shapes.old self.now.listed }
        ensures number { IfOk result (λ n. IsNumberOf shapes.new (shape_at shapes.new n) n) }
        ensures spelled { IfOk result
            (λ n. SpellsWith self.now.several (shapes_given shapes.old self.now.listed)
            (view tree.now) (shape_at shapes.new n)) }
        ensures refused { IfErr result
            (TellsOf self.now.several (shapes_given shapes.old self.now.listed) (view tree.now)) }
        ensures keeps { Keeps shapes.old shapes.new }
    {
        if self.several {
            shapes.read_with(tree, self.listed)
        } else {
            shapes.read_with_v1(tree, self.listed)
        }
    }

    /// What is told of a field whose tree is refused as a shape, or for a reference in it.
    fn no_number(&self, refusal: NumberedRefusal, field: &str) -> ReadFault
        ensures { (wrong : List RecordComplaint) → IfSome (fault_told refusal)
            (λ fault. Contains wrong (complaint_of self.now.name.now field.now fault))
            → TellsOneOf wrong result }
    {
        match refusal {
            NumberedRefusal::Shape(refusal) => self.no_shape(refusal, field),
            NumberedRefusal::BadNumber => self.refuse(RecordFault::BadNumber, field),
            NumberedRefusal::OutOfMemory => ReadFault::OutOfMemory,
        }
    }
}
