//! The shape of a state's output.

ghost use Rattle.std.specs.Prelude.{◌≡◌, ◌<◌, ◌∷◌, [], Err, Ok, IfOk, IfErr, length, codes};
ghost use Rattle.asl_model.specs.ShapeFlow as model;
ghost use Rattle.asl_states.specs.Machine.{settings_view, kind_view};
ghost use Rattle.asl_flow.specs.Doubts.{fault_of, flow_view, IsCauseIn, IsFlowIn};
ghost use Rattle.asl_flow.specs.Leaving.{FlowsTo, InputLeaves, IsStopped, ResultLeaves, leaving_of, way_out};
ghost use Rattle.asl_numbered.specs.Expansion.{shape_at, IsNumberOf, Keeps};
ghost use Rattle.asl_shape.specs.View.{view};

use crate::doubts::{Cause, Doubt, Flow, stopped};
use crate::steps::{through_path, through_template};
use asl_model::shape_laws::leave_means_an_output;
use asl_numbered::Shapes;
use asl_path::RefPath;
use asl_shape::Shape;
use asl_shape_paths::numbers::{are_inhabited, expand, is_inhabited, put_never};
use asl_shape_paths::{PutRefusal, counterexample_at, put_at};
use asl_states::{Kind, Settings, State};
use asl_tree::{OutOfMemory, Tree};
use std::alloc::Global;

/// Why a state's output may not come about. The field is `ResultSelector`, `ResultPath` or `OutputPath`.
#[derive(Debug, Drop)]
pub enum FlowFault {
    /// A path of that field may name nothing; the tree is one of the shape that the path goes into, in which it does so.
    MayBeMissing(&'static str, Tree),
    /// A call in that field may fail.
    MayFail(&'static str),
    /// What that field places may not fit.
    MayNotFit(&'static str),
    /// An allocation was refused.
    OutOfMemory,
}

impl From<OutOfMemory> for FlowFault {
    ghost use Rattle.asl_flow.specs.declared.leaving.FlowFault.{FlowFault};

    ghost from_gives = { λ _ fault. fault ≡ FlowFault.OutOfMemory };

    fn from(_error: OutOfMemory) -> FlowFault {
        FlowFault::OutOfMemory
    }
}

/// The shape of a state's output, for the shapes of its raw input and of its work (States Language, "Input and Output
/// Processing").
///
/// The work is the result, which goes through `ResultSelector`, `ResultPath` and `OutputPath`, or for Choice, Wait and
/// Succeed the effective input, which goes through `OutputPath` alone. `Never` where no tree has one of the two shapes,
/// and for a Fail, which nothing leaves. Of several faults the first is told, with its field, and that of a path with a tree
/// that shows it; `OutOfMemory` comes only where an allocation was refused, of that tree too.
pub fn leave(alloc: Global, state: &State, raw: &Shape, work: &Shape) -> Result<Shape, FlowFault>
    ensures as_defined { IfOk result
        (λ s. way_out state.now (view raw.now) (view work.now) ≡ Ok (view s)) }
    ensures result_leaves { IfOk result
        (λ s. ResultLeaves state.now (view raw.now) (view work.now) (view s)) }
    ensures input_leaves { IfOk result
        (λ s. InputLeaves state.now (view raw.now) (view work.now) (view s)) }
    ensures refused { IfErr result
        (IsStopped (way_out state.now (view raw.now) (view work.now))) }
{
    leave_means_an_output();
    let mut shapes = Shapes::new(alloc);
    let raw = shapes.add(raw)?;
    let work = shapes.add(work)?;
    let output = leave_at(alloc, &mut shapes, state, raw, work)?;
    Ok(expand(&shapes, output)?)
}

/// The number of the shape of a state's output, for the numbers of those of its raw input and of its work, as [`leave`]
/// tells it. What is refused may leave further shapes in the table.
pub fn leave_at(
    alloc: Global,
    shapes: &mut Shapes,
    state: &State,
    raw: usize,
    work: usize,
) -> Result<usize, FlowFault>
    requires raw { raw < length shapes.old }
    requires work { work < length shapes.old }
    ensures as_defined { IfOk result
        (λ n. way_out state.now (shape_at shapes.old raw) (shape_at shapes.old work)
        ≡ Ok (shape_at shapes.new n)) }
    ensures number { IfOk result (λ n. IsNumberOf shapes.new (shape_at shapes.new n) n) }
    ensures refused { IfErr result
        (IsStopped (way_out state.now (shape_at shapes.old raw) (shape_at shapes.old work))) }
    ensures keeps { Keeps shapes.old shapes.new }
{
    match output_at(alloc, shapes, state, raw, work)? {
        Ok(number) => Ok(number),
        Err(doubts) => Err(fault_told(alloc, shapes, doubts[0])?),
    }
}

/// The number of the shape of a state's output, as [`leave_at`] tells it, or all doubts of the first of the fields
/// `ResultSelector`, `ResultPath` and `OutputPath` that has some, in order. Refuses only where an allocation was refused, and
/// may leave further shapes in the table.
pub fn output_at<'p>(
    alloc: Global,
    shapes: &mut Shapes,
    state: &'p State,
    raw: usize,
    work: usize,
) -> Result<Flow<'p>, OutOfMemory>
    requires raw { raw < length shapes.old }
    requires work { work < length shapes.old }
    ensures as_defined { IfOk result
        (λ flow. way_out state.now (shape_at shapes.old raw) (shape_at shapes.old work)
        ≡ flow_view shapes.new flow) }
    ensures within { IfOk result (IsFlowIn (length shapes.new)) }
    ensures number { IfOk result
        (λ flow. IfOk flow (λ n. IsNumberOf shapes.new (shape_at shapes.new n) n)) }
    ensures keeps { Keeps shapes.old shapes.new }
{
    let flow = output_by_kind(alloc, shapes, state, raw, work)?;
    shapes.are_distinct();
    Ok(flow)
}

/// The fault that tells a doubt.
fn fault_told(
    alloc: Global,
    shapes: &mut Shapes,
    doubt: Doubt<'_>,
) -> Result<FlowFault, OutOfMemory>
    requires cause { IsCauseIn shapes.old doubt.cause }
    ensures told { IfOk result (IsStopped (Err (fault_of shapes.old doubt.entry ∷ []))) }
    ensures keeps { Keeps shapes.old shapes.new }
{
    match doubt.cause {
        Cause::MayBeMissing(doubtful) => {
            let tree = counterexample_at(alloc, shapes, doubtful)?;
            Ok(FlowFault::MayBeMissing(doubt.field, tree))
        }
        Cause::MayFail => Ok(FlowFault::MayFail(doubt.field)),
        Cause::MayNotFit => Ok(FlowFault::MayNotFit(doubt.field)),
    }
}

/// What a state's type lets leave.
fn output_by_kind<'p>(
    alloc: Global,
    shapes: &mut Shapes,
    state: &'p State,
    raw: usize,
    work: usize,
) -> Result<Flow<'p>, OutOfMemory>
    requires raw { raw < length shapes.old }
    requires work { work < length shapes.old }
    ensures flows { IfOk result
        (FlowsTo shapes.new
        (model.leave (settings_view state.now.settings) (kind_view state.now.kind)
        (shape_at shapes.old raw) (shape_at shapes.old work))) }
    ensures keeps { Keeps shapes.old shapes.new }
{
    match what_leaves(&state.kind) {
        Leaving::WithResult => result_output(alloc, shapes, &state.settings, raw, work),
        Leaving::WithInput if is_inhabited(shapes, raw) => {
            at_output(alloc, shapes, &state.settings, work)
        }
        Leaving::WithInput | Leaving::Nothing => Ok(Ok(put_never(shapes)?)),
    }
}

/// What leaves a state: its result, its effective input, or nothing.
#[derive(Clone, Copy, Drop)]
pub(crate) enum Leaving {
    WithResult,
    WithInput,
    Nothing,
}

/// What leaves a state, by its type.
fn what_leaves(kind: &Kind) -> Leaving
    ensures { leaving_of result ≡ model.leaving (kind_view kind.now) }
{
    match kind {
        Kind::Pass { result: _ }
        | Kind::Task { resource: _ }
        | Kind::Parallel { branches: _ }
        | Kind::Map {
            items_path: _,
            item_selector: _,
            processor: _,
        } => Leaving::WithResult,
        Kind::Choice {
            choices: _,
            default: _,
        }
        | Kind::Wait { delay: _ }
        | Kind::Succeed => Leaving::WithInput,
        Kind::Fail { error: _, cause: _ } => Leaving::Nothing,
    }
}

/// What `ResultSelector`, `ResultPath` and `OutputPath` make of a result.
fn result_output<'p>(
    alloc: Global,
    shapes: &mut Shapes,
    settings: &'p Settings,
    raw: usize,
    work: usize,
) -> Result<Flow<'p>, OutOfMemory>
    requires raw { raw < length shapes.old }
    requires work { work < length shapes.old }
    ensures flows { IfOk result
        (FlowsTo shapes.new
        (model.result_leaves (settings_view settings.now) (shape_at shapes.old raw)
        (shape_at shapes.old work))) }
    ensures keeps { Keeps shapes.old shapes.new }
{
    if !are_inhabited(shapes, raw, work) {
        return Ok(Ok(put_never(shapes)?));
    }
    let selector = &settings.result_selector;
    let selected = match through_template(alloc, shapes, "ResultSelector", selector, work)? {
        Ok(selected) => selected,
        Err(doubts) => return Ok(Err(doubts)),
    };
    let placed = match placed(alloc, shapes, &settings.result_path, raw, selected)? {
        Ok(placed) => placed,
        Err(doubts) => return Ok(Err(doubts)),
    };
    at_output(alloc, shapes, settings, placed)
}

/// What `ResultPath` makes of a raw input in which a result is placed.
fn placed<'p>(
    alloc: Global,
    shapes: &mut Shapes,
    path: &'p Option<RefPath>,
    raw: usize,
    work: usize,
) -> Result<Flow<'p>, OutOfMemory>
    requires raw { raw < length shapes.old }
    requires work { work < length shapes.old }
    ensures flows { IfOk result
        (FlowsTo shapes.new (model.through_placing (codes "ResultPath") path.now
        (shape_at shapes.old raw) (shape_at shapes.old work))) }
    ensures keeps { Keeps shapes.old shapes.new }
{
    match path {
        None if is_inhabited(shapes, work) => Ok(Ok(raw)),
        None => Ok(Ok(put_never(shapes)?)),
        Some(path) => match put_at(alloc, shapes, raw, path, work) {
            Ok(number) => Ok(Ok(number)),
            Err(PutRefusal::MayNotFit(_)) => stopped(alloc, "ResultPath", Cause::MayNotFit),
            Err(PutRefusal::OutOfMemory) => Err(OutOfMemory),
        },
    }
}

/// What `OutputPath` leaves of a shape.
fn at_output<'p>(
    alloc: Global,
    shapes: &mut Shapes,
    settings: &'p Settings,
    number: usize,
) -> Result<Flow<'p>, OutOfMemory>
    requires number { number < length shapes.old }
    ensures flows { IfOk result
        (FlowsTo shapes.new (model.output_flow (settings_view settings.now)
        (shape_at shapes.old number))) }
    ensures keeps { Keeps shapes.old shapes.new }
{
    through_path(alloc, shapes, "OutputPath", &settings.output_path, number)
}
