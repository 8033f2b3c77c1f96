//! The steps of a shape's way through a state that more than one field has: a path, and a template.
ghost use Rattle.std.specs.Prelude.{◌<◌, IfOk, length, option_map};
ghost use Rattle.asl_flow.specs.Leaving.{FlowsTo};
ghost use Rattle.asl_flow.specs.Sources.{input_of, item_of, IsWithin};
ghost use Rattle.asl_model.specs.ShapeFlow as model;
ghost use Rattle.asl_numbered.specs.Expansion.{shape_at, Keeps};
ghost use Rattle.asl_template.specs.View as templates;

use crate::doubts::{Cause, Flow, stopped};
use crate::references::Sources;
use crate::templates::fill_at;
use asl_numbered::Shapes;
use asl_path::RefPath;
use asl_shape_paths::composing::closed_object;
use asl_shape_paths::find_at;
use asl_shape_paths::numbers::{is_inhabited, put_never};
use asl_template::Template;
use asl_tree::OutOfMemory;
use std::alloc::Global;
use std::collections::BTreeMap;

/// What the path in that field takes of a shape; where it is null, `{}`.
pub(crate) fn through_path<'p>(
    alloc: Global,
    shapes: &mut Shapes,
    field: &'static str,
    path: &'p Option<RefPath>,
    number: usize,
) -> Result<Flow<'p>, OutOfMemory>
    requires number { number < length shapes.old }
    ensures flows { IfOk result
        (FlowsTo shapes.new (model.through_path field.now path.now (shape_at shapes.old number))) }
    ensures keeps { Keeps shapes.old shapes.new }
{
    match path {
        None if is_inhabited(shapes, number) => {
            Ok(Ok(closed_object(shapes, BTreeMap::new(alloc))?))
        }
        None => Ok(Ok(put_never(shapes)?)),
        Some(path) => match find_at(shapes, number, path)? {
            Ok(part) => Ok(Ok(part)),
            Err(doubtful) => stopped(alloc, field, Cause::MayBeMissing(doubtful)),
        },
    }
}

/// What the template in that field makes of a shape; without one the shape goes through.
pub(crate) fn through_template<'p>(
    alloc: Global,
    shapes: &mut Shapes,
    field: &'static str,
    template: &'p Option<Template>,
    input: usize,
) -> Result<Flow<'p>, OutOfMemory>
    requires input { input < length shapes.old }
    ensures flows { IfOk result
        (FlowsTo shapes.new
        (model.through_template field.now (option_map templates.view template.now)
        (shape_at shapes.old input))) }
    ensures keeps { Keeps shapes.old shapes.new }
{
    match template {
        None => Ok(Ok(input)),
        Some(template) => {
            let item = None;
            fill(alloc, shapes, field, template, Sources { input, item })
        }
    }
}

/// What the template in that field makes of its input, and of an item where there is one.
pub(crate) fn fill<'p>(
    alloc: Global,
    shapes: &mut Shapes,
    field: &'static str,
    template: &'p Template,
    sources: Sources,
) -> Result<Flow<'p>, OutOfMemory>
    requires within { IsWithin (length shapes.old) sources }
    ensures flows { IfOk result
        (FlowsTo shapes.new (model.template_flow field.now
        (model.template_shape (templates.view template.now)
        (input_of shapes.old sources) (item_of shapes.old sources)))) }
    ensures keeps { Keeps shapes.old shapes.new }
{
    fill_at(alloc, shapes, field, template, sources)
}
