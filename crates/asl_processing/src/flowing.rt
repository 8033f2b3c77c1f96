//! The data flow through a state: from its raw input to its effective input, and from its result to its output
//! (States Language, "Input and Output Processing").

ghost use Rattle.std.specs.Prelude.{◌≡◌, IsTrue, ◌↔◌, [], Some, codes};
ghost use Rattle.asl_intrinsic.specs.View.{at_hand};
ghost use Rattle.asl_states.specs.Machine.{settings_view};
ghost use Rattle.asl_model.specs.Flow as model;
ghost use Rattle.asl_model.specs.Template.{template_value};
ghost use Rattle.asl_processing.specs.Data.{data_view, datum_view};
ghost use Rattle.asl_processing.specs.Flowing.{Flows, Finds};
ghost use Rattle.asl_template.specs.View as templates;
ghost use Rattle.asl_tree.specs.View.{view};

use crate::data::{Data, Datum};
use crate::faults::{DataFlowError, Fault, Stop};
use asl_intrinsic::Item;
use asl_path::{PlaceRefusal, RefPath, find, place};
use asl_states::Settings;
use asl_template::{Template, TemplateRefusal, eval};
use asl_tree::{Tree, copy};
use std::alloc::Global;

/// What stands after `InputPath` and `Parameters`. Where no template makes it, it is lent by the raw input; where it is
/// the whole of that, it is shared.
pub(crate) fn effective_input<'t>(
    alloc: Global,
    settings: &Settings,
    raw: &'t Datum,
) -> Result<Data<'t>, Stop>
    ensures { Flows data_view result
        (model.effective_input (settings_view settings.now) (view raw.now.value)) }
{
    let input = at_input_path(alloc, &settings.input_path, raw)?;
    match &settings.parameters {
        Some(template) => {
            let value = by_template(alloc, "Parameters", template, input.as_tree(), None)?;
            Ok(Data::Made(value))
        }
        None => Ok(input),
    }
}

/// What `InputPath` gives of a raw input.
fn at_input_path<'t>(
    alloc: Global,
    path: &Option<RefPath>,
    raw: &'t Datum,
) -> Result<Data<'t>, Fault>
    ensures { Finds data_view result
        (model.at_path (codes "InputPath") path.now (view raw.now.value)) }
{
    if is_whole(path) {
        return Ok(Data::Shared(raw));
    }
    at_path(alloc, "InputPath", path, raw)
}

/// What `InputPath` or `OutputPath` gives: the empty object where it is null, else what the path names.
fn at_path<'t>(
    alloc: Global,
    field: &'static str,
    path: &Option<RefPath>,
    tree: &'t Tree,
) -> Result<Data<'t>, Fault>
    ensures { Finds data_view result (model.at_path field.now path.now (view tree.now)) }
{
    match path {
        Some(path) => Ok(Data::Lent(named_in(field, path, tree)?)),
        None => Ok(Data::empty(alloc)),
    }
}

/// What the path in that field names.
pub(crate) fn named_in<'t>(
    field: &'static str,
    path: &RefPath,
    tree: &'t Tree,
) -> Result<&'t Tree, Fault>
    ensures { Finds (λ t. view t.now) result (model.named_in field.now path.now (view tree.now)) }
{
    match find(tree, path) {
        Some(node) => Ok(node),
        None => Err(Fault {
            error: DataFlowError::NamesNothing,
            field,
        }),
    }
}

/// The value of the template in that field for an input and the item at hand.
pub(crate) fn by_template(
    alloc: Global,
    field: &'static str,
    template: &Template,
    input: &Tree,
    item: Option<Item>,
) -> Result<Tree, Stop>
    ensures { Flows view result (model.met_in field.now
        (template_value (templates.view template.now) (view input.now) (at_hand item.entry))) }
{
    let error = match eval(alloc, template, input, item) {
        Ok(value) => return Ok(value),
        Err(TemplateRefusal::ParameterPathFailure) => DataFlowError::ParameterPathFailure,
        Err(TemplateRefusal::IntrinsicFailure) => DataFlowError::IntrinsicFailure,
        Err(TemplateRefusal::OutOfMemory) => return Err(Stop::OutOfMemory),
    };
    Err(Stop::Fault(Fault { error, field }))
}

/// What `OutputPath` leaves of a tree: the empty object where it is null, else what the path names.
///
/// Refused: the fault that the path names nothing, and want of memory.
pub fn at_output_path(alloc: Global, settings: &Settings, value: Data) -> Result<Datum, Stop>
    ensures { Flows datum_view result
        (model.at_output_path (settings_view settings.now) (data_view value.entry)) }
{
    if is_whole(&settings.output_path) {
        return Ok(value.into_datum(alloc)?);
    }
    let output = at_path(alloc, "OutputPath", &settings.output_path, value.as_tree())?;
    Ok(output.into_datum(alloc)?)
}

/// The output of a state with that raw input and that value as its result: `ResultSelector`, `ResultPath` and
/// `OutputPath`, in turn.
///
/// Refused: the first fault that one of them meets, and want of memory.
pub fn output_of(
    alloc: Global,
    settings: &Settings,
    raw: &Datum,
    value: Data,
) -> Result<Datum, Stop>
    ensures { Flows datum_view result (model.output_of (settings_view settings.now)
        (view raw.now.value) (data_view value.entry)) }
{
    let selected = match &settings.result_selector {
        Some(template) => {
            let selection = by_template(alloc, "ResultSelector", template, value.as_tree(), None)?;
            Data::Made(selection)
        }
        None => value,
    };
    let placed = place_result(alloc, &settings.result_path, raw, selected)?;
    at_output_path(alloc, settings, placed)
}

/// The value placed in the raw input; with `ResultPath` null the raw input itself.
fn place_result<'t>(
    alloc: Global,
    path: &Option<RefPath>,
    raw: &'t Datum,
    value: Data<'t>,
) -> Result<Data<'t>, Stop>
    ensures { Flows data_view result
        (model.result_placed path.now (view raw.now.value) (data_view value.entry)) }
{
    let Some(path) = path else {
        return Ok(Data::Shared(raw));
    };
    if path.segments().is_empty() {
        return Ok(value);
    }
    let own = value.into_tree(alloc)?;
    let copied = copy(alloc, raw)?;
    match place(alloc, copied, path, own) {
        Ok(tree) => Ok(Data::Made(tree)),
        Err((PlaceRefusal::CannotPlace, _, _)) => Err(Stop::Fault(Fault {
            error: DataFlowError::ResultPathMatchFailure,
            field: "ResultPath",
        })),
        Err((PlaceRefusal::OutOfMemory, _, _)) => Err(Stop::OutOfMemory),
    }
}

/// Whether the path is `$`, which names the whole tree.
fn is_whole(path: &Option<RefPath>) -> bool
    ensures { IsTrue result ↔ path.now ≡ Some [] }
{
    match path {
        Some(path) => path.segments().is_empty(),
        None => false,
    }
}
