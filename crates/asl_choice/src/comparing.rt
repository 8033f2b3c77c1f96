//! Comparing values, and telling their kinds.
ghost use Rattle.std.specs.Prelude.{◌≡◌, option_map};
ghost use Rattle.asl_model.specs.Test.{as_text as text_of, as_integer as integer_of, as_boolean as boolean_of, compares as comparison_holds, is_of_kind as has_kind, relates as relation_holds};
ghost use Rattle.asl_choice.specs.View.{comparison_view, kind_view, relation_view};
ghost use Rattle.asl_tree.specs.View as trees;

use crate::{Comparison, Relation, ValueKind};
use asl_tree::Tree;
use std::cmp::Ordering;

/// Whether the comparison holds of the two values; it doesn't where they aren't both of its type.
pub(crate) fn compares(comparison: Comparison, first: &Tree, second: &Tree) -> bool
    ensures { result ≡ comparison_holds (comparison_view comparison) (trees.view first.now)
        (trees.view second.now) }
{
    match comparison {
        Comparison::String(relation) => match (as_text(first), as_text(second)) {
            (Some(first), Some(second)) => relates(relation, first.cmp(second)),
            _ => false,
        },
        Comparison::Numeric(relation) => match (as_integer(first), as_integer(second)) {
            (Some(first), Some(second)) => relates(relation, first.cmp(&second)),
            _ => false,
        },
        Comparison::BooleanEquals => match (as_boolean(first), as_boolean(second)) {
            (Some(first), Some(second)) => first == second,
            _ => false,
        },
    }
}

/// Whether the relation holds of two values that compare so.
fn relates(relation: Relation, order: Ordering) -> bool
    ensures { result ≡ relation_holds (relation_view relation) order }
{
    match relation {
        Relation::Equals => order.is_eq(),
        Relation::LessThan => order.is_lt(),
        Relation::GreaterThan => order.is_gt(),
        Relation::LessThanEquals => order.is_le(),
        Relation::GreaterThanEquals => order.is_ge(),
    }
}

/// Whether the value is of that kind.
pub(crate) fn is_of_kind(kind: ValueKind, value: &Tree) -> bool
    ensures { result ≡ has_kind (kind_view kind) (trees.view value.now) }
{
    match kind {
        ValueKind::Null => matches!(value, Tree::Null),
        ValueKind::Numeric => as_integer(value).is_some(),
        ValueKind::String => as_text(value).is_some(),
        ValueKind::Boolean => as_boolean(value).is_some(),
    }
}

/// The text that the value is, if it is one.
pub(crate) fn as_text(value: &Tree) -> Option<&str>
    ensures { option_map (λ text. text.now) result ≡ text_of (trees.view value.now) }
{
    match value {
        Tree::Text(text) => Some(text.as_str()),
        Tree::Null | Tree::Bool(_) | Tree::Int(_) | Tree::List(_) | Tree::Object(_) => None,
    }
}

/// The number that the value is, if it is one.
fn as_integer(value: &Tree) -> Option<i64>
    ensures { result ≡ integer_of (trees.view value.now) }
{
    match value {
        Tree::Int(number) => Some(*number),
        Tree::Null | Tree::Bool(_) | Tree::Text(_) | Tree::List(_) | Tree::Object(_) => None,
    }
}

/// The truth value that the value is, if it is one.
fn as_boolean(value: &Tree) -> Option<bool>
    ensures { result ≡ boolean_of (trees.view value.now) }
{
    match value {
        Tree::Bool(truth) => Some(*truth),
        Tree::Null | Tree::Int(_) | Tree::Text(_) | Tree::List(_) | Tree::Object(_) => None,
    }
}
