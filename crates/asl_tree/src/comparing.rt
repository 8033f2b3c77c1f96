//! Comparing trees.
ghost use Rattle.std.specs.Prelude.{◌≡◌, ◌↔◌, IsTrue};
ghost use Rattle.asl_tree.specs.View.{view, elements_view, entries_view};

use crate::Tree;
use std::collections::BTreeMap;

/// Whether the two trees are equal.
#[cycle(same)]
pub fn same(first: &Tree, second: &Tree) -> bool
    ensures { IsTrue result ↔ view first.now ≡ view second.now }
{
    match first {
        Tree::Null => matches!(second, Tree::Null),
        Tree::Bool(a) => matches!(second, Tree::Bool(b) if a == b),
        Tree::Int(a) => matches!(second, Tree::Int(b) if a == b),
        Tree::Text(a) => matches!(second, Tree::Text(b) if a == b),
        Tree::List(a) => matches!(second, Tree::List(b) if same_elements(a, b)),
        Tree::Object(a) => matches!(second, Tree::Object(b) if same_fields(a, b)),
    }
}

#[cycle(same)]
fn same_elements(first: &Vec<Tree>, second: &Vec<Tree>) -> bool
    ensures { IsTrue result ↔ elements_view first.now.items ≡ elements_view second.now.items }
{
    let mut others = second.iter();
    for element in first {
        match others.next() {
            Some(other) => {
                if !same(element, other) {
                    return false;
                }
            }
            None => return false,
        }
    }
    others.next().is_none()
}

#[cycle(same)]
fn same_fields(first: &BTreeMap<String, Tree>, second: &BTreeMap<String, Tree>) -> bool
    ensures { IsTrue result ↔ entries_view first.now.entries ≡ entries_view second.now.entries }
{
    let mut others = second.iter();
    for (name, field) in first.iter() {
        match others.next() {
            Some((other_name, other)) => {
                if name != other_name || !same(field, other) {
                    return false;
                }
            }
            None => return false,
        }
    }
    others.next().is_none()
}
