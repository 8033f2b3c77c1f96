//! The number of the shape of a state's effective input, and of the input of a Map's children.

ghost use Rattle.std.specs.Prelude.{◌≡◌, ◌<◌, IfOk, length, option_map};
ghost use Rattle.asl_flow.specs.Doubts.{flow_view, IsFlowIn};
ghost use Rattle.asl_flow.specs.Leaving.{FlowsTo};
ghost use Rattle.asl_states.specs.Machine.{settings_view};
ghost use Rattle.asl_model.specs.Finding.{effective_flow, item_flow};
ghost use Rattle.asl_numbered.specs.Expansion.{shape_at, IsNumberOf, Keeps};
ghost use Rattle.asl_template.specs.View as templates;

use crate::doubts::Flow;
use crate::references::Sources;
use crate::steps::{fill, through_path, through_template};
use asl_numbered::Shapes;
use asl_shape_paths::numbers::{is_inhabited, put_never};
use asl_states::Settings;
use asl_template::Template;
use asl_tree::OutOfMemory;
use std::alloc::Global;

/// The number of the shape of a state's effective input, for that of its raw input: what `InputPath` and `Parameters`
/// make of it (States Language, "Input and Output Processing"). Where a path may name nothing or a call may fail, all such
/// doubts of the first of the two fields that has some, in order. Refuses only where an allocation was refused, and may
/// leave further shapes in the table.
pub fn effective_at<'p>(
    alloc: Global,
    shapes: &mut Shapes,
    settings: &'p Settings,
    input: usize,
) -> Result<Flow<'p>, OutOfMemory>
    requires number { input < length shapes.old }
    ensures as_defined { IfOk result
        (λ flow. effective_flow (settings_view settings.now)
        (shape_at shapes.old input) ≡ flow_view shapes.new flow) }
    ensures within { IfOk result (IsFlowIn (length shapes.new)) }
    ensures number { IfOk result
        (λ flow. IfOk flow (λ n. IsNumberOf shapes.new (shape_at shapes.new n) n)) }
    ensures keeps { Keeps shapes.old shapes.new }
{
    let flow = enter(alloc, shapes, settings, input)?;
    shapes.are_distinct();
    Ok(flow)
}

/// The number of the shape of the input of a Map's children, for those of the Map's effective input and of all items:
/// what `ItemSelector`, if any, makes of the two. For an item that never comes it isn't looked at. Its doubts are told as
/// [`effective_at`] tells those of a state's input.
pub fn item_input_at<'p>(
    alloc: Global,
    shapes: &mut Shapes,
    selector: &'p Option<Template>,
    effective: usize,
    element: usize,
) -> Result<Flow<'p>, OutOfMemory>
    requires effective { effective < length shapes.old }
    requires element { element < length shapes.old }
    ensures as_defined { IfOk result
        (λ flow. item_flow (option_map templates.view selector.now)
        (shape_at shapes.old effective) (shape_at shapes.old element) ≡ flow_view shapes.new flow) }
    ensures within { IfOk result (IsFlowIn (length shapes.new)) }
    ensures number { IfOk result
        (λ flow. IfOk flow (λ n. IsNumberOf shapes.new (shape_at shapes.new n) n)) }
    ensures keeps { Keeps shapes.old shapes.new }
{
    let flow = select(alloc, shapes, selector, effective, element)?;
    shapes.are_distinct();
    Ok(flow)
}

/// What `InputPath` and `Parameters` make of an input.
fn enter<'p>(
    alloc: Global,
    shapes: &mut Shapes,
    settings: &'p Settings,
    input: usize,
) -> Result<Flow<'p>, OutOfMemory>
    requires number { input < length shapes.old }
    ensures flows { IfOk result
        (FlowsTo shapes.new
        (effective_flow (settings_view settings.now) (shape_at shapes.old input))) }
    ensures keeps { Keeps shapes.old shapes.new }
{
    match through_path(alloc, shapes, "InputPath", &settings.input_path, input)? {
        Ok(taken) => through_template(alloc, shapes, "Parameters", &settings.parameters, taken),
        Err(doubts) => Ok(Err(doubts)),
    }
}

/// What `ItemSelector` makes of the effective input and of an item; without it the item goes through.
fn select<'p>(
    alloc: Global,
    shapes: &mut Shapes,
    selector: &'p Option<Template>,
    effective: usize,
    element: usize,
) -> Result<Flow<'p>, OutOfMemory>
    requires effective { effective < length shapes.old }
    requires element { element < length shapes.old }
    ensures flows { IfOk result
        (FlowsTo shapes.new (item_flow (option_map templates.view selector.now)
        (shape_at shapes.old effective) (shape_at shapes.old element))) }
    ensures keeps { Keeps shapes.old shapes.new }
{
    match selector {
        None => Ok(Ok(element)),
        Some(template) if is_inhabited(shapes, element) => {
            let sources = Sources {
                input: effective,
                item: Some(element),
            };
            fill(alloc, shapes, "ItemSelector", template, sources)
        }
        Some(_) => Ok(Ok(put_never(shapes)?)),
    }
}
