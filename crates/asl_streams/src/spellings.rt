//! The spelling of a shape whose properties are read into a table before its other keywords.
ghost use Rattle.std.specs.Prelude.{◌≡◌, List, Option, Some, None, codes, length, string_bytes, IfOk, IfSome, OnOk};
ghost use Rattle.asl_model.specs.Shape.{Shape};
ghost use Rattle.asl_model.specs.Tree.{Fields, NoFields, Object};
ghost use Rattle.asl_numbered.specs.Expansion.{AreBelow, Keeps, numbers_in};
ghost use Rattle.asl_numbered.specs.Reading.{AreFieldsRead, IsRead};
ghost use Rattle.asl_numbered.specs.References.{shapes_given};
ghost use Rattle.asl_records.specs.Listed.{AreInTable};
ghost use Rattle.asl_streams.specs.Shaped.{AreKeywords, IsAround, IsOutputOf, others_view, properties_view};
ghost use Rattle.asl_tree.proofs.Views.{put};
ghost use Rattle.asl_tree.specs.View.{view};

use crate::outputs::Output;
use crate::reader::Reader;
use crate::unread::{Unread, no_number, no_shape};
use asl_numbered::{KindNumbers, NodeField, Shapes};
use asl_shape::{Level, read_level};
use asl_tree::{OutOfMemory, Tree};
use std::alloc::Global;
use std::collections::BTreeMap;
use std::rc::RcStr;

/// What has been read of an object that spells a shape.
#[derive(Drop)]
pub(crate) struct Spelling {
    /// What stands under each keyword. Under `properties` an empty object is in the place of what stands there.
    others: BTreeMap<String, Tree>,
    /// The fields that are mentioned under `properties`, where this keyword is there.
    properties: Option<BTreeMap<RcStr, NodeField>>,
}

impl Spelling {
    /// No keywords.
    pub(crate) fn new(alloc: Global) -> Spelling
        ensures others { others_view result ≡ NoFields }
        ensures properties { properties_view result ≡ None }
    {
        Spelling {
            others: BTreeMap::new(alloc),
            properties: None,
        }
    }

    /// Puts the tree under a keyword other than `properties`; the last one stays.
    pub(crate) fn put(&mut self, name: String, tree: Tree) -> Result<(), OutOfMemory>
        ensures others { OnOk result
            (others_view self.new ≡ put (string_bytes name) (view tree) (others_view self.old)) }
        ensures properties { properties_view self.new ≡ properties_view self.old }
    {
        drop(self.others.insert(name, tree)?);
        Ok(())
    }

    /// Puts these fields under `properties`; the last ones stay.
    pub(crate) fn put_properties(
        &mut self,
        alloc: Global,
        properties: BTreeMap<RcStr, NodeField>,
    ) -> Result<(), OutOfMemory>
        ensures others { OnOk result (others_view self.new
            ≡ put (codes "properties") (Object NoFields) (others_view self.old)) }
        ensures properties { OnOk result (properties_view self.new ≡ Some properties.entries) }
    {
        let name = String::from_str(alloc, "properties")?;
        let empty = Tree::Object(BTreeMap::new(alloc));
        drop(self.others.insert(name, empty)?);
        self.properties = Some(properties);
        Ok(())
    }

    /// The number of the shape.
    pub(crate) fn read(self, reader: Reader<'_>, shapes: &mut Shapes) -> Result<usize, Unread>
        requires listed { AreInTable shapes.old reader.listed }
        requires within { IfSome (properties_view self)
            (λ entries. AreBelow (length shapes.old) (numbers_in entries)) }
        ensures number { (fields : Fields)
            → AreKeywords reader.entry.several (shapes_given shapes.old reader.entry.listed)
            shapes.old fields (others_view self) (properties_view self)
            → IfOk result (IsRead reader.entry.several
            (shapes_given shapes.old reader.entry.listed) (Object fields) shapes.new) }
        ensures keeps { Keeps shapes.old shapes.new }
    {
        let tree = Tree::Object(self.others);
        match self.properties {
            Some(properties) => read_around(reader, shapes, &tree, properties),
            None => read_tree(reader, shapes, &tree),
        }
    }

    /// The same of the output's shape: without properties it is kept as a tree.
    pub(crate) fn output(self, reader: Reader<'_>, shapes: &mut Shapes) -> Result<Output, Unread>
        requires within { IfSome (properties_view self)
            (λ entries. AreBelow (length shapes.old) (numbers_in entries)) }
        ensures output { (given : Option (List Shape)) (fields : Fields)
            → AreKeywords reader.entry.several given shapes.old fields (others_view self)
            (properties_view self)
            → IfOk result (IsOutputOf reader.entry.several given shapes.new (Object fields)) }
        ensures keeps { Keeps shapes.old shapes.new }
    {
        let tree = Tree::Object(self.others);
        match self.properties {
            Some(properties) => {
                let number = read_around(reader, shapes, &tree, properties)?;
                Ok(Output::Number(number))
            }
            None => Ok(Output::Spelled(tree)),
        }
    }
}

/// The number of the shape that the tree spells, with these fields in the place of its properties. It is read so where
/// objects are among its kinds and lists aren't.
fn read_around(
    reader: Reader<'_>,
    shapes: &mut Shapes,
    tree: &Tree,
    properties: BTreeMap<RcStr, NodeField>,
) -> Result<usize, Unread>
    requires within { AreBelow (length shapes.old) (numbers_in properties.entries) }
    ensures number { (given : Option (List Shape)) (fields : Fields)
        → IsAround reader.entry.several given shapes.old fields (view tree.now)
        properties.entries
        → IfOk result (IsRead reader.entry.several given (Object fields) shapes.new) }
    ensures keeps { Keeps shapes.old shapes.new }
{
    match read_level(reader.alloc, tree, reader.several) {
        Ok(
            Level::Kinds {
                null,
                boolean,
                integer,
                text,
                list: None,
                object: Some(object),
            },
        ) => {
            let objects = shapes.add_object(properties, &object.required, object.extra)?;
            let kinds = KindNumbers {
                null,
                boolean,
                integer,
                text,
                arrays: None,
                objects: Some(objects),
            };
            Ok(shapes.add_kinds(kinds)?)
        }
        Ok(_) => Err(Unread::Whole),
        Err(refusal) => Err(no_shape(refusal)),
    }
}

/// The number of the shape that the tree spells.
pub(crate) fn read_tree(
    reader: Reader<'_>,
    shapes: &mut Shapes,
    tree: &Tree,
) -> Result<usize, Unread>
    requires listed { AreInTable shapes.old reader.listed }
    ensures number { IfOk result (IsRead reader.entry.several
        (shapes_given shapes.old reader.entry.listed) (view tree.now) shapes.new) }
    ensures keeps { Keeps shapes.old shapes.new }
{
    let read = if reader.several {
        shapes.read_with(tree, reader.listed)
    } else {
        shapes.read_with_v1(tree, reader.listed)
    };
    match read {
        Ok(number) => Ok(number),
        Err(refusal) => Err(no_number(refusal)),
    }
}
