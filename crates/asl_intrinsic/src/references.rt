//! Reading the paths in calls and in templates.
ghost use Rattle.std.specs.Prelude.{◌≡◌, IfOk, List, option_map, codes};
ghost use Rattle.asl_model.specs.CallSpelling.{context_of, reference_of};
ghost use Rattle.asl_model.specs.Intrinsic.{PathArgument};
ghost use Rattle.asl_model.specs.Path as model;
ghost use Rattle.asl_model.specs.PathSpelling.{path_of as path_from};
ghost use Rattle.asl_intrinsic.specs.View.{argument_view};

use crate::Arg;
use asl_path::{PathRefusal, RefPath, parse};
use asl_tree::OutOfMemory;
use std::alloc::Global;

/// The path that a text spells in a call or in a template, if it spells one (States Language, "The Context Object").
///
/// It goes into the input; where `item` allows it, it may also be the item's number, or go into the item.
pub fn parse_reference(alloc: Global, text: &str, item: bool) -> Result<Option<Arg>, OutOfMemory>
    ensures { IfOk result (λ argument. option_map argument_view argument
        ≡ option_map PathArgument (reference_of item text.now)) }
{
    if !text.starts_with("$$") {
        return match path_of(alloc, text)? {
            Some(path) => Ok(Some(Arg::Path(path))),
            None => Ok(None),
        };
    }
    if item {
        item_reference(alloc, text)
    } else {
        Ok(None)
    }
}

/// The argument that a context path spells: the item's number, or a path into the item.
fn item_reference(alloc: Global, text: &str) -> Result<Option<Arg>, OutOfMemory>
    ensures { IfOk result (λ argument. option_map argument_view argument
        ≡ option_map PathArgument (context_of text.now)) }
{
    if text == "$$.Map.Item.Index" {
        return Ok(Some(Arg::ItemIndex));
    }
    let Some(segments) = text.strip_prefix("$$.Map.Item.Value") else {
        return Ok(None);
    };
    let mut path = String::from_str(alloc, "$")?;
    path.push_str(segments)?;
    match path_of(alloc, &path)? {
        Some(path) => Ok(Some(Arg::ItemValue(path))),
        None => Ok(None),
    }
}

/// The path that the text spells.
fn path_of(alloc: Global, text: &str) -> Result<Option<RefPath>, OutOfMemory>
    ensures { IfOk result (λ path. path ≡ path_from text.now) }
{
    match parse(alloc, text) {
        Ok(path) => Ok(Some(path)),
        Err(PathRefusal::NoDollar) => Ok(None),
        Err(PathRefusal::BadSegment(_)) => Ok(None),
        Err(PathRefusal::LeftOut(_)) => Ok(None),
        Err(PathRefusal::OutOfMemory) => Err(OutOfMemory),
    }
}
