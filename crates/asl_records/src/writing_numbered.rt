//! Writing certificates whose shapes stand in a table.

ghost use Rattle.std.specs.Prelude.{◌≡◌, ◌<◌, ◌^◌, IfOk, IfSome, List, Some, is_some, length, map, not, option_map};
ghost use Rattle.serde_json.specs.Data.{Data};
ghost use Rattle.asl_model.specs.Json.{tree_of};
ghost use Rattle.asl_model.specs.Records.{StandsForCertificate};
ghost use Rattle.asl_model.specs.Shape as shape;
ghost use Rattle.asl_model.specs.Shape.{has_arrays, has_objects};
ghost use Rattle.asl_model.specs.ShapeOrder.{is_any_shape};
ghost use Rattle.asl_model.specs.Tree as json;
ghost use Rattle.asl_model.specs.Written as model;
ghost use Rattle.asl_model.specs.WrittenNumbered as list;
ghost use Rattle.asl_numbered.specs.Expansion.{shape_at, fields_at, numbers_in, AreBelow};
ghost use Rattle.asl_numbered.specs.TakenApart.{arrays_over, objects_over};
ghost use Rattle.asl_shape.specs.Adding.{with_field};
ghost use Rattle.asl_shape.specs.WrittenKinds.{are_closed, with_arrays, with_objects};
ghost use Rattle.asl_tree.specs.View as trees;
ghost use Rattle.asl_records.specs.Numbered.{AreWithin, AreNumbersBelow, AreEntriesBelow, numbered_view, numbered_entries, numbers_view};
ghost use Rattle.asl_records.specs.Writing.{with_item};
ghost use Rattle.asl_records.specs.WritingNumbered.{ArraysAreBelow, IsReady, ObjectsAreBelow, listed_by, referred, referred_at, spelled_over, table_of};

use crate::listing::Listing;
use crate::numbering::expand;
use crate::records::{NumberedCertificate, StateNumbers};
use crate::writing::{add, add_list, add_version};
use asl_model::reading_laws::written_records_are_read_back;
use asl_numbered::{NodeArrays, NodeField, NodeObjects, Shapes};
use asl_shape::{Written, WrittenArrays, WrittenObjects, write, write_kinds};
use asl_tree::{OutOfMemory, Tree};
use std::alloc::Global;
use std::collections::BTreeMap;
use std::rc::RcStr;

/// The tree that is written for a certificate, in which each distinct shape of lists, of objects or of several kinds is
/// listed once, in `shapes`, behind its parts, and stands everywhere as a reference. Its version is that of
/// [`NumberedCertificate::version`]. A JSON value that is this tree stands for the same certificate.
///
/// Refuses only where an allocation was refused.
pub fn write_numbered(alloc: Global, certificate: &NumberedCertificate) -> Result<Tree, OutOfMemory>
    requires within { AreWithin certificate.now }
    ensures written { IfOk result
        (λ t. trees.view t ≡ list.written_numbered (numbered_view certificate.now)) }
    ensures reads_back { IfOk result
        (λ t. (v : Data) → tree_of v ≡ Some (trees.view t)
        → StandsForCertificate v (numbered_view certificate.now)) }
{
    certificate.shapes.are_proper();
    written_records_are_read_back();
    let listing = Listing::of(alloc, certificate)?;
    let writer = ShapeWriter {
        alloc,
        shapes: &certificate.shapes,
        listing: &listing,
    };
    let mut fields = BTreeMap::new(alloc);
    writer.add_shape(&mut fields, "output", certificate.output)?;
    add_list(alloc, &mut fields, "shapes", writer.write_listed()?)?;
    let states = writer.write_states(&certificate.states)?;
    add(alloc, &mut fields, "states", Tree::Object(states))?;
    add_version(alloc, &mut fields, certificate.has_several())?;
    Ok(Tree::Object(fields))
}

/// Writes the shapes of a table, and the parts of a certificate, over a list of its shapes.
#[derive(Clone, Copy)]
pub struct ShapeWriter<'c> {
    alloc: Global,
    shapes: &'c Shapes,
    listing: &'c Listing,
}

impl<'c> ShapeWriter<'c> {
    /// What writes the shapes of that table over that list of them.
    pub fn new(alloc: Global, shapes: &'c Shapes, listing: &'c Listing) -> ShapeWriter<'c>
        ensures shapes { result.shapes.now ≡ shapes.now }
        ensures listing { result.listing.now ≡ listing.now }
    {
        ShapeWriter {
            alloc,
            shapes,
            listing,
        }
    }

    /// The numbers of the listed shapes, in order.
    pub fn listed(&self) -> &[usize]
        ensures { result.now ≡ self.now.listing.now.order.items }
    {
        &self.listing.order
    }

    /// The entries of the states.
    fn write_states(
        &self,
        states: &BTreeMap<String, StateNumbers>,
    ) -> Result<BTreeMap<String, Tree>, OutOfMemory>
        requires ready { IsReady self.now }
        requires below { AreEntriesBelow (length self.now.shapes.now) states.now.entries }
        ensures written { IfOk result (λ m. trees.entries_view m.entries
            ≡ model.written_entries (model.written_state (referred self.now))
            (numbered_entries (table_of self.now) states.now.entries)) }
    {
        let mut entries = BTreeMap::new(self.alloc);
        for (name, state) in states.iter() {
            let key = name.clone()?;
            drop(entries.insert(key, self.write_state(state)?)?);
        }
        Ok(entries)
    }

    /// The entry of a state.
    fn write_state(&self, state: &StateNumbers) -> Result<Tree, OutOfMemory>
        requires ready { IsReady self.now }
        requires below { AreNumbersBelow (length self.now.shapes.now) state.now }
        ensures written { IfOk result
            (λ t. trees.view t ≡ model.written_state (referred self.now)
            (numbers_view (table_of self.now) state.now)) }
    {
        let mut fields = BTreeMap::new(self.alloc);
        let branches = self.refer_all(&state.branches)?;
        add_list(self.alloc, &mut fields, "branches", branches)?;
        self.add_shape(&mut fields, "input", state.input)?;
        self.add_item(&mut fields, state.item)?;
        self.add_shape(&mut fields, "output", state.output)?;
        Ok(Tree::Object(fields))
    }

    /// Adds `item` where there is one.
    fn add_item(
        &self,
        fields: &mut BTreeMap<String, Tree>,
        item: Option<usize>,
    ) -> Result<(), OutOfMemory>
        requires ready { IsReady self.now }
        requires below { IfSome item (λ n. n < length self.now.shapes.now) }
        ensures added { IfOk result (λ _. trees.entries_view fields.new.entries
            ≡ with_item (referred self.now) (option_map (shape_at (table_of self.now)) item)
            (trees.entries_view fields.old.entries)) }
    {
        match item {
            Some(number) => self.add_shape(fields, "item", number),
            None => Ok(()),
        }
    }

    /// Adds a field with a shape.
    fn add_shape(
        &self,
        fields: &mut BTreeMap<String, Tree>,
        name: &str,
        number: usize,
    ) -> Result<(), OutOfMemory>
        requires ready { IsReady self.now }
        requires below { number < length self.now.shapes.now }
        ensures added { IfOk result (λ _. trees.entries_view fields.new.entries
            ≡ with_field name.now (referred_at self.now number)
            (trees.entries_view fields.old.entries)) }
    {
        let value = self.refer(number)?;
        add(self.alloc, fields, name, value)
    }

    /// Each of the listed shapes.
    fn write_listed(&self) -> Result<Vec<Tree>, OutOfMemory>
        requires ready { IsReady self.now }
        ensures written { IfOk result (λ v. trees.elements_view v.items
            ≡ model.written_list (spelled_over self.now) (listed_by self.now)) }
    {
        let numbers = &self.listing.order;
        let mut elements = Vec::with_capacity(self.alloc, numbers.len())?;
        for number in numbers {
            elements.push(self.write_over(*number)?)?;
        }
        Ok(elements)
    }

    /// The tree of the shape of that number as the list has it: each part that is listed is a reference. Refuses only where
    /// an allocation was refused.
    pub fn write_over(&self, number: usize) -> Result<Tree, OutOfMemory>
        requires ready { IsReady self.now }
        requires below { number < length self.now.shapes.now }
        ensures written { IfOk result (λ t. trees.view t
            ≡ spelled_over self.now (shape_at (table_of self.now) number)) }
    {
        let Some(kinds) = self.shapes.take_apart(number) else {
            return Ok(Tree::Bool(true));
        };
        let written = Written {
            null: kinds.null,
            boolean: kinds.boolean,
            integer: kinds.integer,
            text: kinds.text,
            arrays: self.refer_arrays(kinds.arrays)?,
            objects: self.refer_objects(kinds.objects)?,
        };
        write_kinds(self.alloc, written)
    }

    /// For the lists that a shape takes.
    fn refer_arrays(
        &self,
        arrays: Option<NodeArrays<'_>>,
    ) -> Result<Option<WrittenArrays>, OutOfMemory>
        requires ready { IsReady self.now }
        requires below { IfSome arrays (ArraysAreBelow (length self.now.shapes.now)) }
        ensures written { IfOk result (λ w. (others : json.Fields) → with_arrays w others
            ≡ list.with_arrays_over (listed_by self.now)
            (arrays_over (table_of self.now) arrays.entry) others) }
        ensures some { IfOk result
            (λ w. is_some w ≡ has_arrays (arrays_over (table_of self.now) arrays.entry)) }
    {
        let Some(arrays) = arrays else {
            return Ok(None);
        };
        let prefix_items = self.refer_all(arrays.first)?;
        let items = self.refer_unless_any(arrays.rest)?;
        Ok(Some(WrittenArrays {
            prefix_items,
            items,
        }))
    }

    /// For the objects that a shape takes.
    fn refer_objects(
        &self,
        objects: Option<NodeObjects<'_>>,
    ) -> Result<Option<WrittenObjects>, OutOfMemory>
        requires ready { IsReady self.now }
        requires below { IfSome objects (ObjectsAreBelow (length self.now.shapes.now)) }
        ensures written { IfOk result (λ w. (others : json.Fields) → with_objects w others
            ≡ list.with_objects_over (listed_by self.now)
            (objects_over (table_of self.now) objects.entry) others) }
        ensures some { IfOk result
            (λ w. is_some w ≡ has_objects (objects_over (table_of self.now) objects.entry)) }
        ensures closed { IfOk result
            (λ w. are_closed w ≡ model.are_closed
            (objects_over (table_of self.now) objects.entry)) }
    {
        let Some(NodeObjects { fields, extra, .. }) = objects else {
            return Ok(None);
        };
        let properties = self.refer_fields(fields)?;
        let required = needed_names(self.alloc, fields)?;
        Ok(Some(WrittenObjects {
            properties,
            required,
            extra,
        }))
    }

    /// What stands for a shape, unless it is `Any`.
    fn refer_unless_any(&self, number: usize) -> Result<Option<Tree>, OutOfMemory>
        requires ready { IsReady self.now }
        requires below { number < length self.now.shapes.now }
        ensures some { IfOk result (λ w. is_some w
            ≡ not (is_any_shape (shape_at (table_of self.now) number))) }
        ensures written { IfOk result (λ w. IfSome w
            (λ t. trees.view t ≡ referred_at self.now number)) }
    {
        match self.shapes.take_apart(number) {
            Some(_) => Ok(Some(self.refer(number)?)),
            None => Ok(None),
        }
    }

    /// For each mentioned field what stands for its shape.
    fn refer_fields(
        &self,
        fields: &BTreeMap<RcStr, NodeField>,
    ) -> Result<BTreeMap<String, Tree>, OutOfMemory>
        requires ready { IsReady self.now }
        requires below { AreBelow (length self.now.shapes.now) (numbers_in fields.now.entries) }
        ensures written { IfOk result (λ m. trees.entries_view m.entries
            ≡ list.fields_referring (listed_by self.now)
            (fields_at (table_of self.now) fields.now.entries)) }
    {
        let mut properties = BTreeMap::new(self.alloc);
        for (name, field) in fields.iter() {
            let key = String::from_str(self.alloc, name)?;
            drop(properties.insert(key, self.refer(field.shape)?)?);
        }
        Ok(properties)
    }

    /// What stands for each of the shapes.
    fn refer_all(&self, numbers: &[usize]) -> Result<Vec<Tree>, OutOfMemory>
        requires ready { IsReady self.now }
        requires below { AreBelow (length self.now.shapes.now) numbers.now }
        ensures written { IfOk result (λ v. trees.elements_view v.items
            ≡ model.written_list (referred self.now)
            (map (shape_at (table_of self.now)) numbers.now)) }
    {
        let mut elements = Vec::with_capacity(self.alloc, numbers.len())?;
        for number in numbers {
            elements.push(self.refer(*number)?)?;
        }
        Ok(elements)
    }

    /// What stands for the shape of that number: a reference, where it is listed, or else the tree that spells it. Refuses
    /// only where an allocation was refused.
    pub fn refer(&self, number: usize) -> Result<Tree, OutOfMemory>
        requires ready { IsReady self.now }
        requires below { number < length self.now.shapes.now }
        ensures written { IfOk result (λ t. trees.view t ≡ referred_at self.now number) }
    {
        match self.listing.places[number] {
            Some(place) => write_reference(self.alloc, place),
            None => write(self.alloc, &expand(self.shapes, number)?),
        }
    }
}

/// A reference to the shape at that place.
fn write_reference(alloc: Global, place: usize) -> Result<Tree, OutOfMemory>
    requires place { place < 2 ^ 63 }
    ensures written { IfOk result (λ t. trees.view t ≡ list.reference place) }
{
    let mut fields = BTreeMap::new(alloc);
    add(alloc, &mut fields, "shape", Tree::Int(place as i64))?;
    Ok(Tree::Object(fields))
}

/// The names of the needed fields, as texts.
fn needed_names(
    alloc: Global,
    fields: &BTreeMap<RcStr, NodeField>,
) -> Result<Vec<Tree>, OutOfMemory>
    ensures written { IfOk result
        (λ v. (table : List shape.Shape) → trees.elements_view v.items
        ≡ model.as_texts (model.needed_names (fields_at table fields.now.entries))) }
{
    let mut names = Vec::new(alloc);
    for (name, field) in fields.iter() {
        if field.needed {
            names.push(Tree::Text(String::from_str(alloc, name)?))?;
        }
    }
    Ok(names)
}
