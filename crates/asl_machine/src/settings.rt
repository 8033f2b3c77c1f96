// Reading what states of several types have (States Language, "State Types", "Input and Output Processing").

ghost use Rattle.std.specs.Prelude.{◌≡◌, IfOk, codes, false, option_map};
ghost use Rattle.asl_model.specs.Machine.{settings_of};
ghost use Rattle.asl_model.specs.StandsFor.{path_or_null_at, template_at, settings_in};
ghost use Rattle.asl_template.specs.View as templates;
ghost use Rattle.asl_states.specs.Machine.{settings_view};
ghost use Rattle.asl_fields.specs.Verdicts.{IsVerdict, place_view};
ghost use Rattle.asl_machine.specs.Reading.{processing_told, settings_told, names_in};
ghost use Rattle.asl_fields.specs.Reading.{fields_of};
ghost use Rattle.asl_fields.specs.Rows.{type_view};
ghost use Rattle.asl_machine.specs.Built.{state_as};

use crate::kinds::read_parameters;
use crate::trouble_reading::read_trouble;
use asl_fields::rows::StateType;
use asl_fields::{
    Complaint, Place, build_target, build_text, natural_of, optional_natural_of, path_or_null_of,
    template_of,
};
use asl_path::RefPath;
use asl_states::Settings;
use asl_template::Template;
use serde_json::Value;
use std::alloc::Global;

/// The most items that a Map without `MaxConcurrency` works on at once: no bound.
const DEFAULT_CONCURRENCY: u64 = 0;

/// What a state makes of its data (States Language, "Input and Output Processing").
#[derive(Drop)]
struct Processing {
    input_path: Option<RefPath>,
    result_path: Option<RefPath>,
    output_path: Option<RefPath>,
    result_selector: Option<Template>,
}

/// What states of several types have, for a state of that type. Its catchers go on to states of `scope`.
pub(crate) fn read_settings<'a>(
    alloc: Global,
    name: &'a str,
    state_type: StateType,
    state: &'a Value,
    scope: &Value,
) -> Result<Settings, Complaint<'a>>
    ensures settings { IfOk result (λ s. settings_view s
        ≡ settings_in (settings_of (state_as state_type state.now)).parameters
        (fields_of state.now)) }
    ensures told { IsVerdict (settings_told (type_view state_type) name.now
        (names_in scope.now) (fields_of state.now)) result }
{
    let place = Place {
        state: name,
        within: None,
    };
    let next = place.or_out_of_memory("Next", build_target(alloc, state, "Next"))?;
    let comment = place.or_out_of_memory("Comment", build_text(alloc, state, "Comment"))?;
    let trouble = read_trouble(alloc, name, state, scope)?;
    let processing = read_processing(alloc, &place, state)?;
    let parameters = read_parameters(alloc, &place, state_type, state)?;
    Ok(Settings {
        input_path: processing.input_path,
        parameters,
        result_selector: processing.result_selector,
        result_path: processing.result_path,
        output_path: processing.output_path,
        next,
        retriers: trouble.retriers,
        catchers: trouble.catchers,
        timeout_seconds: optional_natural_of(state, "TimeoutSeconds"),
        heartbeat_seconds: optional_natural_of(state, "HeartbeatSeconds"),
        max_concurrency: natural_of(state, "MaxConcurrency", DEFAULT_CONCURRENCY),
        comment,
    })
}

/// What a state makes of its data, but for its parameters.
fn read_processing<'a>(
    alloc: Global,
    place: &Place<'a>,
    state: &Value,
) -> Result<Processing, Complaint<'a>>
    ensures input { IfOk result
        (λ p. p.input_path ≡ path_or_null_at (codes "InputPath") (fields_of state.now)) }
    ensures placed { IfOk result
        (λ p. p.result_path ≡ path_or_null_at (codes "ResultPath") (fields_of state.now)) }
    ensures output { IfOk result
        (λ p. p.output_path ≡ path_or_null_at (codes "OutputPath") (fields_of state.now)) }
    ensures selected { IfOk result (λ p. option_map templates.view p.result_selector
        ≡ template_at false (codes "ResultSelector") (fields_of state.now)) }
    ensures told { IsVerdict (processing_told (place_view place.now) (fields_of state.now)) result }
{
    let result_selector = template_of(alloc, place, state, "ResultSelector", false)?;
    let result_path = path_or_null_of(alloc, place, state, "ResultPath")?;
    let input_path = path_or_null_of(alloc, place, state, "InputPath")?;
    let output_path = path_or_null_of(alloc, place, state, "OutputPath")?;
    Ok(Processing {
        input_path,
        result_path,
        output_path,
        result_selector,
    })
}
