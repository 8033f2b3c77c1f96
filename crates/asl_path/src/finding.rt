//! What a path names in a tree.
ghost use Rattle.std.specs.Prelude.{◌≡◌, None, option_map, IfSome};
ghost use Rattle.asl_model.specs.Path.{Names, child as child_of, named_by};
ghost use Rattle.asl_model.specs.Tree as model;
ghost use Rattle.asl_path.specs.View.{segment_view};
ghost use Rattle.asl_tree.specs.View.{view};

use crate::{RefPath, Segment};
use asl_tree::Tree;

/// The node of `tree` that `path` names, or `None` where it names none (States Language, "Paths").
pub fn find<'t>(tree: &'t Tree, path: &RefPath) -> Option<&'t Tree>
    ensures value { option_map (λ t. view t.now) result ≡ named_by path.now (view tree.now) }
    ensures named { IfSome result (λ t. Names path.now (view tree.now) (view t.now)) }
    ensures nothing_named { result ≡ None → (t : model.Tree) → ¬ Names path.now (view tree.now) t }
{
    let mut node = tree;
    for segment in path.segments() {
        node = child(node, segment)?;
    }
    Some(node)
}

/// What one step leads to from `tree`.
fn child<'t>(tree: &'t Tree, segment: &Segment) -> Option<&'t Tree>
    ensures { option_map (λ t. view t.now) result
        ≡ child_of (segment_view segment.now) (view tree.now) }
{
    match (tree, segment) {
        (Tree::Object(fields), Segment::Name(name)) => fields.get(name.as_str()),
        (Tree::List(elements), Segment::Index(index)) => elements.get(*index as usize),
        _ => None,
    }
}
