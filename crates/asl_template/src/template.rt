//! The type of templates.

use asl_intrinsic::Call;
use asl_path::RefPath;
use asl_tree::Tree;
use std::collections::BTreeMap;

/// A JSON value in which some values are to be replaced.
#[derive(Drop)]
pub enum Template {
    /// A value that stands for itself.
    Literal(Tree),
    /// A path into the template's input.
    Path(RefPath),
    /// `$$.Map.Item.Index`: the number of the item.
    ItemIndex,
    /// `$$.Map.Item.Value` with further segments: a path into the item.
    ItemValue(RefPath),
    /// An intrinsic call.
    Call(Call),
    List(Vec<Template>),
    /// The fields, by name without the suffix `.$`; their order is that of the names' bytes.
    Object(BTreeMap<String, Template>),
}
