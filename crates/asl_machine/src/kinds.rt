// Reading what the type of a state adds (States Language, "State Types").

ghost use Rattle.std.specs.Prelude.{◌≡◌, IfOk, [], codes, map, option_map, option_and_then};
ghost use Rattle.serde_json.specs.Find.{get_member};
ghost use Rattle.asl_model.specs.Json.{tree_of};
ghost use Rattle.asl_model.specs.Machine.{Pass, Task, Choice, Wait, Fail, Parallel, Map, settings_of, kind_of};
ghost use Rattle.asl_model.specs.Numbering.{kind_outline, scopes_outline};
ghost use Rattle.asl_model.specs.StandsFor.{type_of as model_type_of, text_at, path_at, rules_of, delay_of, selector_of, branches_under, processor_under};
ghost use Rattle.asl_template.specs.View as templates;
ghost use Rattle.asl_states.specs.Machine.{choice_rule_view, delay_view, kind_view};
ghost use Rattle.asl_fields.specs.Verdicts.{IsVerdict, place_view};
ghost use Rattle.asl_machine.specs.Reading.{parameters_told, delay_told, selector_told, names_in, choices_told, map_told, kind_told_with_targets};
ghost use Rattle.asl_fields.specs.Reading.{fields_of, text_or_none};
ghost use Rattle.asl_fields.specs.Rows.{type_view};
ghost use Rattle.asl_machine.specs.Built.{state_as};

use crate::scopes::{build_branch_starts, build_processor_start};
use crate::state_checking::check_rule_targets;
use asl_fields::rows::StateType;
use asl_fields::{
    Complaint, Place, build_target, build_text_or_empty, build_tree, is_given, natural_of, path_of,
    read_choices, template_of, text_of,
};
use asl_path::RefPath;
use asl_states::{ChoiceRule, Delay, Kind, Target};
use asl_template::Template;
use asl_tree::OutOfMemory;
use serde_json::Value;
use std::alloc::Global;

/// The type of a state, where it is one.
pub(crate) fn type_of(state: &Value) -> Option<StateType>
    ensures { option_map type_view result ≡ model_type_of (fields_of state.now) }
{
    match text_of(state, "Type") {
        Some(name) => StateType::named(name),
        None => None,
    }
}

/// The parameters of a state of that type, where it has any; those of a Map are its `ItemSelector`.
pub(crate) fn read_parameters<'a>(
    alloc: Global,
    place: &Place<'a>,
    state_type: StateType,
    state: &Value,
) -> Result<Option<Template>, Complaint<'a>>
    ensures parameters { IfOk result (λ p. option_map templates.view p
        ≡ (settings_of (state_as state_type state.now)).parameters) }
    ensures told { IsVerdict (parameters_told (type_view state_type)
        (place_view place.now) (fields_of state.now)) result }
{
    match state_type {
        StateType::Pass => template_of(alloc, place, state, "Parameters", false),
        StateType::Task => template_of(alloc, place, state, "Parameters", false),
        StateType::Parallel => template_of(alloc, place, state, "Parameters", false),
        StateType::Choice
        | StateType::Wait
        | StateType::Succeed
        | StateType::Fail
        | StateType::Map => Ok(None),
    }
}

/// What that type of state adds. The rules of a Choice go on to states of `scope`.
pub(crate) fn read_kind<'a>(
    alloc: Global,
    name: &'a str,
    state_type: StateType,
    state: &Value,
    scope: &Value,
) -> Result<Kind, Complaint<'a>>
    ensures kind { IfOk result
        (λ k. kind_view k ≡ kind_outline (kind_of (state_as state_type state.now))) }
    ensures told { IsVerdict
        (kind_told_with_targets (type_view state_type) name.now
        (names_in scope.now) (fields_of state.now)) result }
{
    let place = Place {
        state: name,
        within: None,
    };
    match state_type {
        StateType::Pass => read_pass(alloc, &place, state),
        StateType::Task => read_task(alloc, &place, state),
        StateType::Choice => read_choice(alloc, &place, state, scope),
        StateType::Wait => read_wait(alloc, &place, state),
        StateType::Succeed => Ok(Kind::Succeed),
        StateType::Fail => read_fail(alloc, &place, state),
        StateType::Parallel => read_parallel(alloc, &place, state),
        StateType::Map => read_map(alloc, &place, state),
    }
}

/// What a Pass adds.
fn read_pass<'a>(alloc: Global, place: &Place<'a>, state: &Value) -> Result<Kind, Complaint<'a>>
    ensures kind { IfOk result (λ k. kind_view k
        ≡ Pass (option_and_then tree_of (get_member (codes "Result") (fields_of state.now)))) }
    ensures told { IsVerdict [] result }
{
    let result = place.or_out_of_memory("Result", build_tree(alloc, state, "Result"))?;
    Ok(Kind::Pass { result })
}

/// What a Task adds.
fn read_task<'a>(alloc: Global, place: &Place<'a>, state: &Value) -> Result<Kind, Complaint<'a>>
    ensures kind { IfOk result
        (λ k. kind_view k ≡ Task (text_or_none (codes "Resource") state.now)) }
    ensures told { IsVerdict [] result }
{
    let resource = build_text_or_empty(alloc, state, "Resource");
    let resource = place.or_out_of_memory("Resource", resource)?;
    Ok(Kind::Task { resource })
}

/// What a Choice adds.
fn read_choice<'a>(
    alloc: Global,
    place: &Place<'a>,
    state: &Value,
    scope: &Value,
) -> Result<Kind, Complaint<'a>>
    ensures kind { IfOk result (λ k. kind_view k
        ≡ Choice (rules_of (fields_of state.now))
        (text_at (codes "Default") (fields_of state.now))) }
    ensures told { IsVerdict
        (choices_told (place_view place.now) (names_in scope.now) (fields_of state.now)) result }
{
    let default = place.or_out_of_memory("Default", build_target(alloc, state, "Default"))?;
    let choices = read_rules_with_targets(alloc, place, state, scope)?;
    Ok(Kind::Choice { choices, default })
}

/// The rules of a Choice, each of which goes on to a state of `scope`.
fn read_rules_with_targets<'a>(
    alloc: Global,
    place: &Place<'a>,
    state: &Value,
    scope: &Value,
) -> Result<Vec<ChoiceRule>, Complaint<'a>>
    ensures rules { IfOk result
        (λ rules. map choice_rule_view rules.items ≡ rules_of (fields_of state.now)) }
    ensures told { IsVerdict
        (choices_told (place_view place.now) (names_in scope.now) (fields_of state.now)) result }
{
    let rules = read_choices(alloc, place, state)?;
    check_rule_targets(place, &rules, scope)?;
    Ok(rules)
}

/// What a Wait adds.
fn read_wait<'a>(alloc: Global, place: &Place<'a>, state: &Value) -> Result<Kind, Complaint<'a>>
    ensures kind { IfOk result (λ k. kind_view k ≡ Wait (delay_of (fields_of state.now))) }
    ensures told { IsVerdict (delay_told (place_view place.now) (fields_of state.now)) result }
{
    let seconds_path = path_of(alloc, place, state, "SecondsPath")?;
    let timestamp_path = path_of(alloc, place, state, "TimestampPath")?;
    let delay = build_delay(alloc, state, seconds_path, timestamp_path);
    let delay = place.or_out_of_memory("Timestamp", delay)?;
    Ok(Kind::Wait { delay })
}

/// What a Fail adds.
fn read_fail<'a>(alloc: Global, place: &Place<'a>, state: &Value) -> Result<Kind, Complaint<'a>>
    ensures kind { IfOk result (λ k. kind_view k
        ≡ Fail (text_or_none (codes "Error") state.now) (text_or_none (codes "Cause") state.now)) }
    ensures told { IsVerdict [] result }
{
    let error = build_text_or_empty(alloc, state, "Error");
    let error = place.or_out_of_memory("Error", error)?;
    let cause = build_text_or_empty(alloc, state, "Cause");
    let cause = place.or_out_of_memory("Cause", cause)?;
    Ok(Kind::Fail { error, cause })
}

/// What a Parallel adds.
fn read_parallel<'a>(alloc: Global, place: &Place<'a>, state: &Value) -> Result<Kind, Complaint<'a>>
    ensures kind { IfOk result
        (λ k. kind_view k ≡ Parallel (scopes_outline (branches_under (fields_of state.now)))) }
    ensures told { IsVerdict [] result }
{
    let branches = place.or_out_of_memory("Branches", build_branch_starts(alloc, state))?;
    Ok(Kind::Parallel { branches })
}

/// What a Map adds.
fn read_map<'a>(alloc: Global, place: &Place<'a>, state: &Value) -> Result<Kind, Complaint<'a>>
    ensures kind { IfOk result (λ k. kind_view k ≡ kind_outline
        (Map (path_at (codes "ItemsPath") (fields_of state.now))
        (selector_of (fields_of state.now)) (processor_under (fields_of state.now)))) }
    ensures told { IsVerdict (map_told (place_view place.now) (fields_of state.now)) result }
{
    let processor = place.or_out_of_memory("StartAt", build_processor_start(alloc, state))?;
    let items_path = path_of(alloc, place, state, "ItemsPath")?;
    let item_selector = read_selector(alloc, place, state)?;
    Ok(Kind::Map {
        items_path,
        processor: Target::new(processor),
        item_selector,
    })
}

/// What a Wait waits for: the first of its four fields that is there. Its paths are given.
fn build_delay(
    alloc: Global,
    state: &Value,
    seconds_path: RefPath,
    timestamp_path: RefPath,
) -> Result<Delay, OutOfMemory>
    requires seconds { seconds_path ≡ path_at (codes "SecondsPath") (fields_of state.now) }
    requires timestamp { timestamp_path ≡ path_at (codes "TimestampPath") (fields_of state.now) }
    ensures { IfOk result (λ d. delay_view d ≡ delay_of (fields_of state.now)) }
{
    if is_given(state, "Seconds") {
        Ok(Delay::Seconds(natural_of(state, "Seconds", 0)))
    } else if is_given(state, "SecondsPath") {
        Ok(Delay::SecondsPath(seconds_path))
    } else if is_given(state, "Timestamp") {
        Ok(Delay::Timestamp(build_text_or_empty(alloc, state, "Timestamp")?))
    } else {
        Ok(Delay::TimestampPath(timestamp_path))
    }
}

/// The `ItemSelector` of a Map, or its `Parameters` as the older name.
fn read_selector<'a>(
    alloc: Global,
    place: &Place<'a>,
    state: &Value,
) -> Result<Option<Template>, Complaint<'a>>
    ensures selector { IfOk result
        (λ t. option_map templates.view t ≡ selector_of (fields_of state.now)) }
    ensures told { IsVerdict (selector_told (place_view place.now) (fields_of state.now)) result }
{
    let selector = template_of(alloc, place, state, "ItemSelector", true)?;
    let parameters = template_of(alloc, place, state, "Parameters", true)?;
    if is_given(state, "ItemSelector") {
        Ok(selector)
    } else {
        Ok(parameters)
    }
}
