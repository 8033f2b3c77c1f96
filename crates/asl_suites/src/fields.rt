//! Fields of objects, as they are read.

use crate::places::Place;
use crate::refusals::{SuiteFault, SuiteRefusal, Wanted};
use asl_tree::Tree;
use std::alloc::Global;
use std::collections::BTreeMap;

/// The fields of an object that aren't read yet, and where it stands.
#[derive(Drop)]
pub(crate) struct Fields<'a> {
    alloc: Global,
    place: &'a Place<'a>,
    fields: BTreeMap<String, Tree>,
}

impl<'a> Fields<'a> {
    /// The fields of the object that stands at that place. Refused: WrongKind.
    pub(crate) fn of(
        alloc: Global,
        place: &'a Place<'a>,
        tree: Tree,
    ) -> Result<Fields<'a>, SuiteRefusal> {
        let fields = object_of(alloc, place, tree)?;
        Ok(Fields {
            alloc,
            place,
            fields,
        })
    }

    /// The same, where each of the fields is one of those. Refused: WrongKind, UnknownField.
    pub(crate) fn among(
        alloc: Global,
        place: &'a Place<'a>,
        tree: Tree,
        known: &[&str],
    ) -> Result<Fields<'a>, SuiteRefusal> {
        let fields = Fields::of(alloc, place, tree)?;
        fields.are_known(known)?;
        Ok(fields)
    }

    /// Refused: UnknownField, for the first that is none of those.
    fn are_known(&self, known: &[&str]) -> Result<(), SuiteRefusal> {
        for (name, _) in self.fields.iter() {
            if !is_among(name, known) {
                let place = Place::Field(self.place, name);
                return Err(place.refusal(self.alloc, SuiteFault::UnknownField));
            }
        }
        Ok(())
    }

    /// The value of that field, where it is there and wasn't taken.
    pub(crate) fn take(&mut self, name: &str) -> Option<Tree> {
        self.fields.remove(name)
    }

    /// The value of that field. Refused: MissingField.
    pub(crate) fn required(&mut self, name: &'static str) -> Result<Tree, SuiteRefusal> {
        match self.fields.remove(name) {
            Some(tree) => Ok(tree),
            None => Err(self.refusal(SuiteFault::MissingField(name))),
        }
    }

    /// The text in that field, where it is there. Refused: WrongKind.
    pub(crate) fn text(&mut self, name: &'static str) -> Result<Option<String>, SuiteRefusal> {
        match self.fields.remove(name) {
            Some(tree) => {
                let place = Place::Field(self.place, name);
                Ok(Some(text_of(self.alloc, &place, tree)?))
            }
            None => Ok(None),
        }
    }

    /// The text in that field. Refused: MissingField, WrongKind.
    pub(crate) fn required_text(&mut self, name: &'static str) -> Result<String, SuiteRefusal> {
        match self.text(name)? {
            Some(text) => Ok(text),
            None => Err(self.refusal(SuiteFault::MissingField(name))),
        }
    }

    /// Reads past the texts that are for people alone. Refused: WrongKind.
    pub(crate) fn pass_remarks(&mut self) -> Result<(), SuiteRefusal> {
        drop(self.text("Comment")?);
        drop(self.text("description")?);
        Ok(())
    }

    /// The refusal for something wrong with the object.
    pub(crate) fn refusal(&self, fault: SuiteFault) -> SuiteRefusal {
        self.place.refusal(self.alloc, fault)
    }
}

/// Whether the name is one of those.
fn is_among(name: &str, known: &[&str]) -> bool {
    known.iter().any(|other| *other == name)
}

/// The fields of the object that stands at that place. Refused: WrongKind.
pub(crate) fn object_of(
    alloc: Global,
    place: &Place<'_>,
    tree: Tree,
) -> Result<BTreeMap<String, Tree>, SuiteRefusal> {
    match tree {
        Tree::Object(fields) => Ok(fields),
        Tree::Null | Tree::Bool(_) | Tree::Int(_) | Tree::Text(_) | Tree::List(_) => {
            Err(place.refusal(alloc, SuiteFault::WrongKind(Wanted::Object)))
        }
    }
}

/// The elements of the list that stands at that place. Refused: WrongKind.
pub(crate) fn list_of(
    alloc: Global,
    place: &Place<'_>,
    tree: Tree,
) -> Result<Vec<Tree>, SuiteRefusal> {
    match tree {
        Tree::List(elements) => Ok(elements),
        Tree::Null | Tree::Bool(_) | Tree::Int(_) | Tree::Text(_) | Tree::Object(_) => {
            Err(place.refusal(alloc, SuiteFault::WrongKind(Wanted::List)))
        }
    }
}

/// The text that stands at that place. Refused: WrongKind.
pub(crate) fn text_of(
    alloc: Global,
    place: &Place<'_>,
    tree: Tree,
) -> Result<String, SuiteRefusal> {
    match tree {
        Tree::Text(text) => Ok(text),
        Tree::Null | Tree::Bool(_) | Tree::Int(_) | Tree::List(_) | Tree::Object(_) => {
            Err(place.refusal(alloc, SuiteFault::WrongKind(Wanted::Text)))
        }
    }
}
