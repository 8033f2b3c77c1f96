// Telling all that is wrong with several fields of a state together, and with its retriers and catchers (States Language,
// "State Types", "Errors").

ghost use Rattle.std.specs.Prelude.{OnOk, codes};
ghost use Rattle.serde_json.specs.View.{view, items_view};
ghost use Rattle.asl_model.specs.StandsFor as model;
ghost use Rattle.asl_fields.specs.Verdicts.{IsVerdict, place_view};
ghost use Rattle.asl_machine.specs.Reading.{catcher_told, names_in, names_told, retrier_told};
ghost use Rattle.asl_fields.specs.Reading.{fields_of, rules_among};
ghost use Rattle.asl_fields.specs.Rows.{rows_view, type_view};
ghost use Rattle.asl_fields.specs.Telling.{Told};
ghost use Rattle.asl_machine.specs.Telling.{rule_spelled};

use crate::state_checking::{
    DELAYS, PROCESSORS, check_goes_on, check_heartbeat, check_one_of, check_rule_target,
    check_selector, check_target,
};
use crate::trouble_reading::read_error_names;
use asl_fields::rows::{self, Row, StateType};
use asl_fields::{
    Complaint, DefFault, Place, elements_of, read_rule, tell, tell_fields, tell_found, wrong_kind,
};
use asl_tree::OutOfMemory;
use serde_json::Value;
use std::alloc::Global;

/// Tells the broken rules on several fields of a state of that type, and what is wrong with its retriers and catchers. The
/// states that it may go on to are those of `scope`.
pub(crate) fn tell_type_rules<'a>(
    alloc: Global,
    name: &'a str,
    state: &'a Value,
    scope: &Value,
    state_type: StateType,
    told: &mut Vec<Complaint<'a>>,
) -> Result<(), OutOfMemory>
    ensures { OnOk result
        (Told told.old.items told.new.items
        (model.type_complaints (type_view state_type) name.now
        (names_in scope.now) (fields_of state.now))) }
{
    match state_type {
        StateType::Pass => tell_next(name, state, scope, told),
        StateType::Task => tell_task(alloc, name, state, scope, told),
        StateType::Choice => tell_choice(alloc, name, state, scope, told),
        StateType::Wait => tell_wait(name, state, scope, told),
        StateType::Succeed | StateType::Fail => Ok(()),
        StateType::Parallel => tell_parallel(alloc, name, state, scope, told),
        StateType::Map => tell_map(alloc, name, state, scope, told),
    }
}

/// Tells what is wrong with where a state goes on to.
fn tell_next<'a>(
    name: &'a str,
    state: &Value,
    scope: &Value,
    told: &mut Vec<Complaint<'a>>,
) -> Result<(), OutOfMemory>
    ensures { OnOk result
        (Told told.old.items told.new.items
        (model.next_complaints (model.place_of_state name.now)
        (names_in scope.now) (fields_of state.now))) }
{
    let place = Place {
        state: name,
        within: None,
    };
    tell_found(check_goes_on(&place, state), told)?;
    tell_found(check_target(&place, "Next", state, "Next", scope), told)?;
    Ok(())
}

/// Tells the broken rules on several fields of a Task.
fn tell_task<'a>(
    alloc: Global,
    name: &'a str,
    state: &'a Value,
    scope: &Value,
    told: &mut Vec<Complaint<'a>>,
) -> Result<(), OutOfMemory>
    ensures { OnOk result
        (Told told.old.items told.new.items
        (model.type_complaints (type_view StateType.Task) name.now
        (names_in scope.now) (fields_of state.now))) }
{
    let place = Place {
        state: name,
        within: None,
    };
    tell_next(name, state, scope, told)?;
    tell_found(check_heartbeat(&place, state), told)?;
    tell_trouble(alloc, name, state, scope, told)?;
    Ok(())
}

/// Tells the broken rules on several fields of a Choice.
fn tell_choice<'a>(
    alloc: Global,
    name: &'a str,
    state: &Value,
    scope: &Value,
    told: &mut Vec<Complaint<'a>>,
) -> Result<(), OutOfMemory>
    ensures { OnOk result
        (Told told.old.items told.new.items
        (model.type_complaints (type_view StateType.Choice) name.now
        (names_in scope.now) (fields_of state.now))) }
{
    let place = Place {
        state: name,
        within: None,
    };
    tell_found(
        check_target(&place, "Default", state, "Default", scope),
        told,
    )?;
    tell_rule_targets(alloc, &place, elements_of(state, "Choices"), scope, told)?;
    Ok(())
}

/// Tells each rule that goes on to no state of the scope. Of an element that is no rule nothing is told.
fn tell_rule_targets<'a>(
    alloc: Global,
    place: &Place<'a>,
    elements: &[Value],
    scope: &Value,
    told: &mut Vec<Complaint<'a>>,
) -> Result<(), OutOfMemory>
    ensures { OnOk result
        (Told told.old.items told.new.items
        (model.rules_complaints (place_view place.now) (names_in scope.now)
        (rules_among (items_view elements.now)))) }
{
    for element in elements {
        tell_rule_target(alloc, place, element, scope, told)?;
    }
    Ok(())
}

/// Tells where the rule that an element spells goes on to no state of the scope.
fn tell_rule_target<'a>(
    alloc: Global,
    place: &Place<'a>,
    element: &Value,
    scope: &Value,
    told: &mut Vec<Complaint<'a>>,
) -> Result<(), OutOfMemory>
    ensures { OnOk result
        (Told told.old.items told.new.items
        (model.rules_complaints (place_view place.now) (names_in scope.now)
        (rule_spelled (view element.now)))) }
{
    match read_rule(alloc, element) {
        Ok(rule) => {
            tell_found(check_rule_target(place, &rule, scope), told)?;
            Ok(())
        }
        Err(DefFault::OutOfMemory) => Err(OutOfMemory),
        Err(_) => Ok(()),
    }
}

/// Tells the broken rules on several fields of a Wait.
fn tell_wait<'a>(
    name: &'a str,
    state: &Value,
    scope: &Value,
    told: &mut Vec<Complaint<'a>>,
) -> Result<(), OutOfMemory>
    ensures { OnOk result
        (Told told.old.items told.new.items
        (model.type_complaints (type_view StateType.Wait) name.now
        (names_in scope.now) (fields_of state.now))) }
{
    let place = Place {
        state: name,
        within: None,
    };
    tell_next(name, state, scope, told)?;
    tell_found(check_one_of(&place, state, "Seconds", &DELAYS), told)?;
    Ok(())
}

/// Tells the broken rules on several fields of a Parallel.
fn tell_parallel<'a>(
    alloc: Global,
    name: &'a str,
    state: &'a Value,
    scope: &Value,
    told: &mut Vec<Complaint<'a>>,
) -> Result<(), OutOfMemory>
    ensures { OnOk result
        (Told told.old.items told.new.items
        (model.type_complaints (type_view StateType.Parallel) name.now
        (names_in scope.now) (fields_of state.now))) }
{
    tell_next(name, state, scope, told)?;
    tell_trouble(alloc, name, state, scope, told)?;
    Ok(())
}

/// Tells the broken rules on several fields of a Map.
fn tell_map<'a>(
    alloc: Global,
    name: &'a str,
    state: &'a Value,
    scope: &Value,
    told: &mut Vec<Complaint<'a>>,
) -> Result<(), OutOfMemory>
    ensures { OnOk result
        (Told told.old.items told.new.items
        (model.type_complaints (type_view StateType.Map) name.now
        (names_in scope.now) (fields_of state.now))) }
{
    let place = Place {
        state: name,
        within: None,
    };
    tell_next(name, state, scope, told)?;
    tell_found(
        check_one_of(&place, state, "ItemProcessor", &PROCESSORS),
        told,
    )?;
    tell_found(check_selector(&place, state), told)?;
    tell_trouble(alloc, name, state, scope, told)?;
    Ok(())
}

/// Tells what is wrong with the retriers and catchers of a state. The catchers go on to states of `scope`.
fn tell_trouble<'a>(
    alloc: Global,
    name: &'a str,
    state: &'a Value,
    scope: &Value,
    told: &mut Vec<Complaint<'a>>,
) -> Result<(), OutOfMemory>
    ensures { OnOk result
        (Told told.old.items told.new.items
        (model.trouble_complaints name.now (names_in scope.now) (fields_of state.now))) }
{
    let of_retriers = Place {
        state: name,
        within: Some("Retry"),
    };
    tell_retriers(alloc, &of_retriers, elements_of(state, "Retry"), told)?;
    let of_catchers = Place {
        state: name,
        within: Some("Catch"),
    };
    tell_catchers(
        alloc,
        &of_catchers,
        elements_of(state, "Catch"),
        scope,
        told,
    )?;
    Ok(())
}

/// Tells what is wrong with each element of `Retry`.
fn tell_retriers<'a>(
    alloc: Global,
    place: &Place<'a>,
    elements: &'a [Value],
    told: &mut Vec<Complaint<'a>>,
) -> Result<(), OutOfMemory>
    ensures { OnOk result
        (Told told.old.items told.new.items
        (model.retriers_complaints (place_view place.now) (items_view elements.now))) }
{
    for (index, element) in elements.iter().enumerate() {
        tell_retrier(alloc, place, element, index + 1 == elements.len(), told)?;
    }
    Ok(())
}

/// Tells what is wrong with an element of `Retry`.
fn tell_retrier<'a>(
    alloc: Global,
    place: &Place<'a>,
    element: &'a Value,
    is_last: bool,
    told: &mut Vec<Complaint<'a>>,
) -> Result<(), OutOfMemory>
    ensures { OnOk result
        (Told told.old.items told.new.items
        (retrier_told (place_view place.now) is_last (view element.now))) }
{
    tell_element(alloc, place, "Retry", element, &rows::RETRIER, told)?;
    tell_found(
        check_error_names(alloc, place, "Retry", element, is_last),
        told,
    )?;
    Ok(())
}

/// Tells what is wrong with each element of `Catch`.
fn tell_catchers<'a>(
    alloc: Global,
    place: &Place<'a>,
    elements: &'a [Value],
    scope: &Value,
    told: &mut Vec<Complaint<'a>>,
) -> Result<(), OutOfMemory>
    ensures { OnOk result
        (Told told.old.items told.new.items
        (model.catchers_complaints (place_view place.now)
        (names_in scope.now) (items_view elements.now))) }
{
    for (index, element) in elements.iter().enumerate() {
        tell_catcher(
            alloc,
            place,
            element,
            index + 1 == elements.len(),
            scope,
            told,
        )?;
    }
    Ok(())
}

/// Tells what is wrong with an element of `Catch`.
fn tell_catcher<'a>(
    alloc: Global,
    place: &Place<'a>,
    element: &'a Value,
    is_last: bool,
    scope: &Value,
    told: &mut Vec<Complaint<'a>>,
) -> Result<(), OutOfMemory>
    ensures { OnOk result
        (Told told.old.items told.new.items
        (catcher_told (place_view place.now) (names_in scope.now) is_last (view element.now))) }
{
    tell_element(alloc, place, "Catch", element, &rows::CATCHER, told)?;
    tell_found(
        check_error_names(alloc, place, "Catch", element, is_last),
        told,
    )?;
    tell_found(check_target(place, "Catch", element, "Next", scope), told)?;
    Ok(())
}

/// Tells what is wrong with an element that has to be an object of those fields.
fn tell_element<'a>(
    alloc: Global,
    place: &Place<'a>,
    field: &'static str,
    element: &'a Value,
    rows: &'static [Row],
    told: &mut Vec<Complaint<'a>>,
) -> Result<(), OutOfMemory>
    ensures { OnOk result
        (Told told.old.items told.new.items
        (model.element_complaints (place_view place.now) field.now
        (rows_view rows.now) (view element.now))) }
{
    if element.is_object() {
        tell_fields(alloc, place, element, rows, told)
    } else {
        tell(place.complaint(field, wrong_kind(element)), told)
    }
}

/// Checks that `States.ALL`, where it is among the error names of an element, stands alone, and in the last element.
fn check_error_names<'a>(
    alloc: Global,
    place: &Place<'a>,
    field: &'static str,
    element: &Value,
    is_last: bool,
) -> Result<(), Complaint<'a>>
    ensures { IsVerdict
        (names_told (place_view place.now) field.now is_last (fields_of element.now)) result }
{
    read_error_names(alloc, place, field, element, is_last)?;
    Ok(())
}
