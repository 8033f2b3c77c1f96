//! The operators of a rule, by their names.
ghost use Rattle.std.specs.Prelude.{◌≡◌, option_map, option_and_then};
ghost use Rattle.asl_model.specs.CallSpelling.{behind};
ghost use Rattle.asl_model.specs.RuleSpelling.{comparison_named as comparison_of, kind_named as kind_of, operator_named as operator_of, path_comparison_named as path_comparison_of, relation_named as relation_of};
ghost use Rattle.asl_choice.specs.Operators.{operator_view};
ghost use Rattle.asl_choice.specs.View.{comparison_view, kind_view, relation_view};

use crate::{Comparison, Relation, ValueKind};

/// What an operator asks of the value at the path in `Variable`.
#[derive(Clone, Copy, Drop)]
pub(crate) enum Operator {
    /// That it compares so with the value in the rule.
    WithValue(Comparison),
    /// That it compares so with the value at the path in the rule (the operators that end in `Path`).
    WithPath(Comparison),
    /// That it matches the pattern in the rule.
    Matching,
    /// That it is of that kind, or isn't.
    OfKind(ValueKind),
    /// That it is there, or isn't.
    Presence,
}

/// The operator of that name, if there is one.
pub(crate) fn operator_named(name: &str) -> Option<Operator>
    ensures { option_map operator_view result ≡ operator_of name.now }
{
    if let Some(comparison) = comparison_named(name) {
        return Some(Operator::WithValue(comparison));
    }
    if let Some(comparison) = path_comparison_named(name) {
        return Some(Operator::WithPath(comparison));
    }
    if let Some(kind) = kind_named(name) {
        return Some(Operator::OfKind(kind));
    }
    match name {
        "StringMatches" => Some(Operator::Matching),
        "IsPresent" => Some(Operator::Presence),
        _ => None,
    }
}

/// The comparison whose name with `Path` at its end that is.
fn path_comparison_named(name: &str) -> Option<Comparison>
    ensures { option_map comparison_view result ≡ path_comparison_of name.now }
{
    match name.strip_suffix("Path") {
        Some(front) => comparison_named(front),
        None => None,
    }
}

/// The comparison of that name.
fn comparison_named(name: &str) -> Option<Comparison>
    ensures { option_map comparison_view result ≡ comparison_of name.now }
{
    if let Some(relation) = relation_behind("String", name) {
        return Some(Comparison::String(relation));
    }
    if let Some(relation) = relation_behind("Numeric", name) {
        return Some(Comparison::Numeric(relation));
    }
    match name {
        "BooleanEquals" => Some(Comparison::BooleanEquals),
        _ => None,
    }
}

/// The relation whose name stands in `name` behind that front.
fn relation_behind(front: &str, name: &str) -> Option<Relation>
    ensures { option_map relation_view result
        ≡ option_and_then relation_of (behind front.now name.now) }
{
    match name.strip_prefix(front) {
        Some(relation) => relation_named(relation),
        None => None,
    }
}

/// The relation of that name.
fn relation_named(name: &str) -> Option<Relation>
    ensures { option_map relation_view result ≡ relation_of name.now }
{
    match name {
        "Equals" => Some(Relation::Equals),
        "LessThan" => Some(Relation::LessThan),
        "GreaterThan" => Some(Relation::GreaterThan),
        "LessThanEquals" => Some(Relation::LessThanEquals),
        "GreaterThanEquals" => Some(Relation::GreaterThanEquals),
        _ => None,
    }
}

/// The kind that an operator of that name asks for.
fn kind_named(name: &str) -> Option<ValueKind>
    ensures { option_map kind_view result ≡ kind_of name.now }
{
    match name {
        "IsNull" => Some(ValueKind::Null),
        "IsNumeric" => Some(ValueKind::Numeric),
        "IsString" => Some(ValueKind::String),
        "IsBoolean" => Some(ValueKind::Boolean),
        _ => None,
    }
}
