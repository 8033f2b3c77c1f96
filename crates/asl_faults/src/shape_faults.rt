//! What is wrong with a shape that is refused, and where.
use crate::found::Found;
use crate::index::Index;
use crate::placed::{Placed, tree_at};
use asl_places::Spot;
use asl_shape::ShapeRefusal;
use asl_shape::levels::{
    annotations, check_min_items, is_among, known_keywords, member, read_additional,
    read_properties, read_required, says, type_names,
};
use asl_tree::{OutOfMemory, Tree};
use std::alloc::Global;
use std::collections::BTreeMap;

/// What is said of a text that ought to be a type.
const NO_TYPE: &str = "is no type of shapes";

/// What is said of a value that ought to be a type or a list of types.
const TYPES_SAID: &str = "A type is a text, or a list of one or more texts, each of them once";

/// What is said of a name that ought to be a keyword.
const NO_KEYWORD: &str = "is no keyword of shapes";

/// All that is wrong with the shape at a spot of a text, and with the shapes in it, at the least depth first. It is as much as
/// `asl_complaints::shape_faults` tells of it: of a value that is no shape, and of a `type` that says none, one fault; without
/// a `type` one for each keyword but the annotations; else one for each keyword that the types don't have, and for each that
/// says what it can't say. What stands in a keyword that isn't read is not looked into. Refuses only where an allocation was
/// refused.
pub fn faults_of_shape(
    alloc: Global,
    index: &Index<'_, '_>,
    text: &[u8],
    spot: Spot,
) -> Result<Vec<Found>, OutOfMemory> {
    let Some(tree) = tree_at(alloc, index, text, spot)? else {
        return Ok(Vec::new(alloc));
    };
    let mut shapes = Vec::new(alloc);
    shapes.push(Placed { spot, tree: &tree })?;
    let mut looking = Looking {
        alloc,
        index,
        shapes,
        found: Vec::new(alloc),
    };
    // Each shape has a byte of the text at least.
    for at in 0..text.len() {
        let Some(shape) = looking.shapes.get(at).copied() else {
            break;
        };
        looking.look_at(shape)?;
    }
    Ok(looking.found)
}

/// A shape that is looked through.
#[derive(Drop)]
struct Looking<'l, 's, 'a, 't> {
    alloc: Global,
    index: &'l Index<'s, 'a>,
    /// The shapes in it that are looked at, and those that are still to come.
    shapes: Vec<Placed<'t>>,
    /// What is wrong with those that are looked at.
    found: Vec<Found>,
}

impl<'t> Looking<'_, '_, '_, 't> {
    /// Adds what is wrong with a shape by itself, and the shapes in it to those that are still to come.
    fn look_at(&mut self, shape: Placed<'t>) -> Result<(), OutOfMemory> {
        match shape.tree {
            Tree::Bool(_) => Ok(()),
            Tree::Object(keywords) => self.add_of_keywords(shape, keywords),
            Tree::Null | Tree::Int(_) | Tree::Text(_) | Tree::List(_) => {
                self.add(shape.spot, "A shape is an object, `true` or `false`")
            }
        }
    }

    /// Adds a fault of which that is said.
    fn add(&mut self, spot: Spot, sentence: &str) -> Result<(), OutOfMemory> {
        self.found.push(Found::told(self.alloc, spot, sentence)?)?;
        Ok(())
    }

    /// Adds a fault of the text that stands there.
    fn add_of_text(&mut self, spot: Spot, isnt: &'static str) -> Result<(), OutOfMemory> {
        self.found.push(Found::of_text(spot, isnt))?;
        Ok(())
    }

    /// Adds a fault of a keyword's value.
    fn add_of_value(
        &mut self,
        shape: Placed<'t>,
        keyword: &str,
        sentence: &str,
    ) -> Result<(), OutOfMemory> {
        let spot = match self.index.member(shape.spot, keyword) {
            Some(found) => found.value,
            None => shape.spot,
        };
        self.add(spot, sentence)
    }

    /// Adds a fault of a keyword's name.
    fn add_of_name(
        &mut self,
        shape: Placed<'t>,
        keyword: &str,
        isnt: &'static str,
    ) -> Result<(), OutOfMemory> {
        let spot = match self.index.member(shape.spot, keyword) {
            Some(found) => found.name,
            None => shape.spot,
        };
        self.add_of_text(spot, isnt)
    }

    /// Adds what is wrong with the keywords of a shape.
    fn add_of_keywords(
        &mut self,
        shape: Placed<'t>,
        keywords: &'t BTreeMap<String, Tree>,
    ) -> Result<(), OutOfMemory> {
        let Some(types) = member(keywords, "type") else {
            return self.add_foreign(shape, keywords, annotations(), "needs a `type` beside it");
        };
        match type_names(types, true) {
            Ok(names) => self.add_of_types(shape, keywords, names),
            Err(_) => self.add_of_type(shape),
        }
    }

    /// Adds the keywords that aren't among the known ones; of those that shapes of some type have, that is said.
    fn add_foreign(
        &mut self,
        shape: Placed<'t>,
        keywords: &'t BTreeMap<String, Tree>,
        known: &[&str],
        isnt: &'static str,
    ) -> Result<(), OutOfMemory> {
        for (keyword, _) in keywords.iter() {
            if !is_among(keyword, known) {
                let is_of_some_type = is_among(keyword, known_keywords(true, true));
                let said = if is_of_some_type { isnt } else { NO_KEYWORD };
                self.add_of_name(shape, keyword, said)?;
            }
        }
        Ok(())
    }

    /// Adds what is wrong with a `type` that says no types: the first text in it that is none, or the value.
    fn add_of_type(&mut self, shape: Placed<'t>) -> Result<(), OutOfMemory> {
        let Some(types) = shape.member(self.index, "type") else {
            return self.add(shape.spot, TYPES_SAID);
        };
        if let Tree::Text(_) = types.tree {
            return self.add_of_text(types.spot, NO_TYPE);
        }
        let mut names = Vec::new(self.alloc);
        types.push_elements(self.index, &mut names)?;
        for name in names {
            if type_names(name.tree, false).is_err() {
                return self.add_of_text(name.spot, NO_TYPE);
            }
        }
        self.add(types.spot, TYPES_SAID)
    }

    /// Adds what is wrong with the keywords beside a `type` that says those types.
    fn add_of_types(
        &mut self,
        shape: Placed<'t>,
        keywords: &'t BTreeMap<String, Tree>,
        types: &[Tree],
    ) -> Result<(), OutOfMemory> {
        let (array, object) = (says(types, "array"), says(types, "object"));
        let isnt = "is no keyword of a shape of this type";
        self.add_foreign(shape, keywords, known_keywords(array, object), isnt)?;
        if array {
            self.add_of_lists(shape, keywords)?;
        }
        if object {
            self.add_of_objects(shape, keywords)?;
        }
        Ok(())
    }

    /// Adds what is wrong with what a shape says of lists, and the shapes of their elements to those that are still to come.
    fn add_of_lists(
        &mut self,
        shape: Placed<'t>,
        keywords: &'t BTreeMap<String, Tree>,
    ) -> Result<(), OutOfMemory> {
        let mut count = 0;
        if let Some(first) = shape.member(self.index, "prefixItems") {
            match first.tree {
                Tree::List(shapes) => count = shapes.len(),
                _ => self.add(
                    first.spot,
                    "The value of `prefixItems` isn't a list of shapes",
                )?,
            }
            first.push_elements(self.index, &mut self.shapes)?;
        }
        if let Some(rest) = shape.member(self.index, "items") {
            self.shapes.push(rest)?;
        }
        self.add_of_count(shape, keywords, count)
    }

    /// Adds what is wrong with a `minItems` beside so many shapes in `prefixItems`, or with its absence.
    fn add_of_count(
        &mut self,
        shape: Placed<'t>,
        keywords: &'t BTreeMap<String, Tree>,
        count: usize,
    ) -> Result<(), OutOfMemory> {
        let (keyword, sentence) = match check_min_items(keywords, count) {
            Ok(()) => return Ok(()),
            Err(ShapeRefusal::NotAShape) => {
                ("minItems", "The value of `minItems` is no whole number")
            }
            Err(_) if member(keywords, "minItems").is_some() => (
                "minItems",
                "The value of `minItems` isn't the number of the shapes in `prefixItems`",
            ),
            Err(_) => (
                "prefixItems",
                "Beside `prefixItems`, a list of shapes, their number has to stand as `minItems`",
            ),
        };
        self.add_of_value(shape, keyword, sentence)
    }

    /// Adds what is wrong with what a shape says of objects, and the shapes of their fields to those that are still to come.
    fn add_of_objects(
        &mut self,
        shape: Placed<'t>,
        keywords: &'t BTreeMap<String, Tree>,
    ) -> Result<(), OutOfMemory> {
        if let Some(fields) = shape.member(self.index, "properties") {
            fields.push_members(self.index, &mut self.shapes)?;
        }
        if read_properties(keywords).is_err() {
            let sentence = "The value of `properties` isn't an object with the shapes of fields";
            self.add_of_value(shape, "properties", sentence)?;
        }
        self.add_of_required(shape, keywords)?;
        if read_additional(keywords).is_err() {
            let sentence = "The value of `additionalProperties` is neither `true` nor `false`";
            self.add_of_value(shape, "additionalProperties", sentence)?;
        }
        Ok(())
    }

    /// Adds what is wrong with the names of the fields that are required.
    fn add_of_required(
        &mut self,
        shape: Placed<'t>,
        keywords: &'t BTreeMap<String, Tree>,
    ) -> Result<(), OutOfMemory> {
        match read_required(self.alloc, keywords) {
            Ok(_) => Ok(()),
            Err(ShapeRefusal::OutOfMemory) => Err(OutOfMemory),
            Err(_) => {
                let sentence = "The value of `required` isn't a list of names, each of them once";
                self.add_of_value(shape, "required", sentence)
            }
        }
    }
}
