// Checking the rules on several fields of a state (States Language, "State Types").

ghost use Rattle.std.specs.Prelude.{◌≡◌, ◌&&◌, Some, not, map, codes, string_bytes, option_and_then};
ghost use Rattle.serde_json.specs.Find.{get_member};
ghost use Rattle.asl_model.specs.DefinitionTable.{as_whole};
ghost use Rattle.asl_model.specs.ShapeSpelling.{is_among};
ghost use Rattle.asl_model.specs.StandsFor as model;
ghost use Rattle.asl_fields.specs.Rows.{type_view};
ghost use Rattle.asl_states.specs.Machine.{choice_rule_view, target_name};
ghost use Rattle.asl_fields.specs.Verdicts.{IsVerdict, place_view};
ghost use Rattle.asl_machine.specs.Reading.{goes_on_told, rules_of_type, names_in, ends_at, task_told, wait_told, map_rules_told};
ghost use Rattle.asl_fields.specs.Reading.{fields_of};

use asl_fields::rows::StateType;
use asl_fields::{Complaint, DefFault, Place, is_given, text_of};
use asl_states::ChoiceRule;
use serde_json::Value;

/// What a Wait may wait for.
pub(crate) const DELAYS: [&str; 4] = ["Seconds", "SecondsPath", "Timestamp", "TimestampPath"];

/// A Map's processor and its older name.
pub(crate) const PROCESSORS: [&str; 2] = ["ItemProcessor", "Iterator"];

/// Checks the rules on several fields of a state of that type, but for its retriers and catchers. The states that it may
/// go on to are those of `scope`.
pub(crate) fn check_type_rules<'a>(
    name: &'a str,
    state: &Value,
    scope: &Value,
    state_type: StateType,
) -> Result<(), Complaint<'a>>
    ensures { IsVerdict (rules_of_type (type_view state_type) name.now
        (names_in scope.now) (fields_of state.now)) result }
{
    let place = Place {
        state: name,
        within: None,
    };
    match state_type {
        StateType::Pass | StateType::Parallel => check_next(&place, state, scope),
        StateType::Task => check_task(&place, state, scope),
        StateType::Choice => check_target(&place, "Default", state, "Default", scope),
        StateType::Wait => check_wait(&place, state, scope),
        StateType::Succeed | StateType::Fail => Ok(()),
        StateType::Map => check_map(&place, state, scope),
    }
}

/// Checks the rules on several fields of a Task.
fn check_task<'a>(place: &Place<'a>, state: &Value, scope: &Value) -> Result<(), Complaint<'a>>
    ensures { IsVerdict
        (task_told (place_view place.now) (names_in scope.now) (fields_of state.now)) result }
{
    check_next(place, state, scope)?;
    check_heartbeat(place, state)
}

/// Checks that each rule of a Choice goes on to a state of the scope.
pub(crate) fn check_rule_targets<'a>(
    place: &Place<'a>,
    rules: &[ChoiceRule],
    scope: &Value,
) -> Result<(), Complaint<'a>>
    ensures { IsVerdict (model.rules_complaints (place_view place.now)
        (names_in scope.now) (map choice_rule_view rules.now)) result }
{
    for rule in rules {
        check_rule_target(place, rule, scope)?;
    }
    Ok(())
}

/// Checks that a rule of a Choice goes on to a state of the scope.
pub(crate) fn check_rule_target<'a>(
    place: &Place<'a>,
    rule: &ChoiceRule,
    scope: &Value,
) -> Result<(), Complaint<'a>>
    ensures { IsVerdict (model.target_complaints
        (place_view place.now) (names_in scope.now)
        (codes "Choices") (Some (target_name rule.now.next))) result }
{
    place.complain_unless(
        has_state(scope, &rule.next.name),
        "Choices",
        DefFault::NoSuchState,
    )
}

/// Checks the rules on several fields of a Wait.
fn check_wait<'a>(place: &Place<'a>, state: &Value, scope: &Value) -> Result<(), Complaint<'a>>
    ensures { IsVerdict
        (wait_told (place_view place.now) (names_in scope.now) (fields_of state.now)) result }
{
    check_next(place, state, scope)?;
    check_one_of(place, state, "Seconds", &DELAYS)
}

/// Checks the rules on several fields of a Map.
fn check_map<'a>(place: &Place<'a>, state: &Value, scope: &Value) -> Result<(), Complaint<'a>>
    ensures { IsVerdict
        (map_rules_told (place_view place.now) (names_in scope.now) (fields_of state.now)) result }
{
    check_next(place, state, scope)?;
    check_one_of(place, state, "ItemProcessor", &PROCESSORS)?;
    check_selector(place, state)
}

/// Checks where a state goes on to.
fn check_next<'a>(place: &Place<'a>, state: &Value, scope: &Value) -> Result<(), Complaint<'a>>
    ensures { IsVerdict (model.next_complaints (place_view place.now)
        (names_in scope.now) (fields_of state.now)) result }
{
    check_goes_on(place, state)?;
    check_target(place, "Next", state, "Next", scope)
}

/// Checks that a state goes on in one way.
pub(crate) fn check_goes_on<'a>(place: &Place<'a>, state: &Value) -> Result<(), Complaint<'a>>
    ensures { IsVerdict (goes_on_told (place_view place.now) (fields_of state.now)) result }
{
    place.complain_unless(goes_on_once(state), "Next", DefFault::NextOrEnd)
}

/// Whether a state goes on in one way: it has exactly one of `Next` and `"End": true`. Of an `End` that is no truth value
/// nothing is said.
fn goes_on_once(state: &Value) -> bool
    ensures { result ≡ not (model.has_proper_end (fields_of state.now)
        && model.same_truth (model.is_given (codes "Next") (fields_of state.now))
        (ends_at (fields_of state.now))) }
{
    let end = match state.get("End") {
        Some(end) => end.as_bool(),
        None => Some(false),
    };
    match end {
        Some(ends) => is_given(state, "Next") != ends,
        None => true,
    }
}

/// Checks that the text in a field of an object, where there is one, names a state of the scope. `told` is the field at
/// which a fault is told.
pub(crate) fn check_target<'a>(
    place: &Place<'a>,
    told: &'static str,
    object: &Value,
    field: &'static str,
    scope: &Value,
) -> Result<(), Complaint<'a>>
    ensures { IsVerdict (model.target_complaints
        (place_view place.now) (names_in scope.now) told.now
        (model.text_at field.now (fields_of object.now))) result }
{
    match text_of(object, field) {
        Some(name) => place.complain_unless(has_state(scope, name), told, DefFault::NoSuchState),
        None => Ok(()),
    }
}

/// Whether a scope has a state of that name.
fn has_state(scope: &Value, name: &str) -> bool
    ensures { result ≡ is_among name.now (names_in scope.now) }
{
    match scope.get("States") {
        Some(states) => states.get(name).is_some(),
        None => false,
    }
}

/// Checks that a heartbeat is smaller than its timeout, where both are given.
pub(crate) fn check_heartbeat<'a>(place: &Place<'a>, state: &Value) -> Result<(), Complaint<'a>>
    ensures { IsVerdict
        (model.heartbeat_complaints (place_view place.now) (fields_of state.now)) result }
{
    let right = match (
        whole_of(state, "HeartbeatSeconds"),
        whole_of(state, "TimeoutSeconds"),
    ) {
        (Some(heartbeat), Some(timeout)) => heartbeat < timeout,
        _ => true,
    };
    place.complain_unless(right, "HeartbeatSeconds", DefFault::HeartbeatNotSmaller)
}

/// The whole number of a field, where it has one.
fn whole_of(object: &Value, field: &str) -> Option<i64>
    ensures { result ≡ option_and_then as_whole (get_member field.now (fields_of object.now)) }
{
    match object.get(field) {
        Some(value) => value.as_i64(),
        None => None,
    }
}

/// Checks that at most one of a Map's `ItemSelector` and its older name is there.
pub(crate) fn check_selector<'a>(place: &Place<'a>, state: &Value) -> Result<(), Complaint<'a>>
    ensures { IsVerdict
        (model.selector_complaints (place_view place.now) (fields_of state.now)) result }
{
    let right = !(is_given(state, "ItemSelector") && is_given(state, "Parameters"));
    place.complain_unless(right, "Parameters", DefFault::WrongKind)
}

/// Checks that exactly one of the fields is there. None is told at `first`, several at the last of them.
pub(crate) fn check_one_of<'a>(
    place: &Place<'a>,
    state: &Value,
    first: &'static str,
    fields: &'static [&'static str],
) -> Result<(), Complaint<'a>>
    ensures { IsVerdict (model.one_of_complaints
        (place_view place.now) first.now
        (model.given_among (map (λ field. field.now) fields.now) (fields_of state.now))) result }
{
    let mut last = None;
    let mut are_several = false;
    for field in fields {
        if is_given(state, field) {
            are_several = last.is_some();
            last = Some(*field);
        }
    }
    match last {
        Some(field) => place.complain_unless(!are_several, field, DefFault::WrongKind),
        None => Err(place.complaint(first, DefFault::MissingField)),
    }
}
