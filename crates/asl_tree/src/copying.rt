//! Copying trees.
ghost use Rattle.std.specs.Prelude.{◌≡◌, IfOk};
ghost use Rattle.asl_tree.specs.View.{view, elements_view, entries_view};

use crate::{OutOfMemory, Tree};
use std::alloc::Global;
use std::collections::BTreeMap;

/// A tree equal to `tree`. Refuses only where an allocation was refused.
#[cycle(copy)]
pub fn copy(alloc: Global, tree: &Tree) -> Result<Tree, OutOfMemory>
    ensures { IfOk result (λ t. view t ≡ view tree.now) }
{
    match tree {
        Tree::Null => Ok(Tree::Null),
        Tree::Bool(b) => Ok(Tree::Bool(*b)),
        Tree::Int(n) => Ok(Tree::Int(*n)),
        Tree::Text(text) => Ok(Tree::Text(text.clone()?)),
        Tree::List(elements) => Ok(Tree::List(copy_elements(alloc, elements)?)),
        Tree::Object(fields) => Ok(Tree::Object(copy_fields(alloc, fields)?)),
    }
}

#[cycle(copy)]
fn copy_elements(alloc: Global, elements: &Vec<Tree>) -> Result<Vec<Tree>, OutOfMemory>
    ensures { IfOk result (λ v. elements_view v.items ≡ elements_view elements.now.items) }
{
    let mut copies = Vec::with_capacity(alloc, elements.len())?;
    for element in elements {
        copies.push(copy(alloc, element)?)?;
    }
    Ok(copies)
}

#[cycle(copy)]
fn copy_fields(
    alloc: Global,
    fields: &BTreeMap<String, Tree>,
) -> Result<BTreeMap<String, Tree>, OutOfMemory>
    ensures { IfOk result (λ m. entries_view m.entries ≡ entries_view fields.now.entries) }
{
    let mut copies = BTreeMap::new(alloc);
    for (name, field) in fields.iter() {
        let key = name.clone()?;
        drop(copies.insert(key, copy(alloc, field)?)?);
    }
    Ok(copies)
}
