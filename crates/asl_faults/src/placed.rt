//! Values of a text with their places.
use crate::index::Index;
use crate::sources::{text_from, value_at};
use asl_places::Spot;
use asl_tree::{OutOfMemory, Tree, TreeRefusal, read};
use std::alloc::Global;
use std::collections::BTreeMap;

/// A value, and where it stands.
#[derive(Clone, Copy)]
pub(crate) struct Placed<'t> {
    pub(crate) spot: Spot,
    pub(crate) tree: &'t Tree,
}

/// What the value at a spot is; none where some number in it isn't whole.
pub(crate) fn tree_at(
    alloc: Global,
    index: &Index<'_, '_>,
    text: &[u8],
    spot: Spot,
) -> Result<Option<Tree>, OutOfMemory> {
    match read(alloc, value_at(text_from(text, index.offset(spot)))) {
        Ok(tree) => Ok(Some(tree)),
        Err(TreeRefusal::OutOfMemory) => Err(OutOfMemory),
        Err(_) => Ok(None),
    }
}

/// An object with these fields.
pub(crate) fn object_of(alloc: Global, fields: Vec<(&str, Tree)>) -> Result<Tree, OutOfMemory> {
    let mut object = BTreeMap::new(alloc);
    for (name, value) in fields {
        drop(object.insert(String::from_str(alloc, name)?, value)?);
    }
    Ok(Tree::Object(object))
}

impl<'t> Placed<'t> {
    /// The fields of an object.
    pub(crate) fn fields(self) -> Option<&'t BTreeMap<String, Tree>> {
        match self.tree {
            Tree::Object(fields) => Some(fields),
            _ => None,
        }
    }

    /// The value of that name in an object.
    pub(crate) fn member(self, index: &Index<'_, '_>, name: &str) -> Option<Placed<'t>> {
        Some(Placed {
            spot: index.member(self.spot, name)?.value,
            tree: self.fields()?.get(name)?,
        })
    }

    /// Puts the elements of a list behind the others.
    pub(crate) fn push_elements(
        self,
        index: &Index<'_, '_>,
        parts: &mut Vec<Placed<'t>>,
    ) -> Result<(), OutOfMemory> {
        let Tree::List(elements) = self.tree else {
            return Ok(());
        };
        for number in 0..elements.len() {
            if let Some(spot) = index.element(self.spot, number) {
                parts.push(Placed {
                    spot,
                    tree: &elements[number],
                })?;
            }
        }
        Ok(())
    }

    /// Puts the values of an object behind the others.
    pub(crate) fn push_members(
        self,
        index: &Index<'_, '_>,
        parts: &mut Vec<Placed<'t>>,
    ) -> Result<(), OutOfMemory> {
        let Tree::Object(fields) = self.tree else {
            return Ok(());
        };
        for (name, tree) in fields.iter() {
            if let Some(member) = index.member(self.spot, name) {
                parts.push(Placed {
                    spot: member.value,
                    tree,
                })?;
            }
        }
        Ok(())
    }
}
