// Telling all that is wrong with the scopes of a definition, which nest: the machine, the branches of Parallels and the
// processors of Maps (States Language, "Structure of a State Machine", "Parallel State", "Map State"). The names of all
// states are gathered on the way, each before those of the states that are nested in its own.

ghost use Rattle.std.specs.Prelude.{◌∷◌, [], OnOk, codes};
ghost use Rattle.asl_model.specs.DefinitionTable.{NotObject};
ghost use Rattle.serde_json.specs.View.{view, items_view, members_view};
ghost use Rattle.asl_model.specs.StandsFor as model;
ghost use Rattle.asl_model.specs.StandsFor.{all_names, names_among, names_within, names_of_scopes};
ghost use Rattle.asl_model.specs.StandsFor.{scope_of, states_in, states_under, each_state, state_of, scopes_in, each_scope, branches_under, processor_under};
ghost use Rattle.asl_machine.specs.Built.{state_as};
ghost use Rattle.asl_fields.specs.Verdicts.{IsVerdict, place_view};
ghost use Rattle.asl_machine.specs.Reading.{branch_told, definition_told, named_told, names_in, nested_told, own_told, typed_told, untyped_told};
ghost use Rattle.asl_fields.specs.Reading.{fields_of};
ghost use Rattle.asl_fields.specs.Rows.{rows_view, type_view};
ghost use Rattle.asl_fields.specs.Telling.{Told};
ghost use Rattle.asl_machine.specs.Telling.{Walks, branch_checked};

use crate::kinds::type_of;
use crate::scope_reading::check_name;
use crate::scopes::is_processor;
use crate::state_checking::check_target;
use crate::state_telling::tell_type_rules;
use asl_fields::rows::{self, Row, StateType};
use asl_fields::{
    Complaint, DefFault, Place, tell, tell_fields, tell_found, tell_rows, text_of, wrong_kind,
};
use asl_tree::OutOfMemory;
use serde_json::{Map, Value};
use std::alloc::Global;

/// What a walk over a definition tells: the complaints, and the names of the states that it comes to, in order.
#[derive(Drop)]
pub(crate) struct Telling<'a> {
    pub(crate) told: Vec<Complaint<'a>>,
    pub(crate) names: Vec<&'a str>,
}

/// Tells what is wrong with a definition, but for the names of all its states together, which it gathers.
pub(crate) fn tell_definition<'a>(
    alloc: Global,
    definition: &'a Value,
    telling: &mut Telling<'a>,
) -> Result<(), OutOfMemory>
    ensures { OnOk result
        (Walks telling.old telling.new
        (definition_told (view definition.now)) (all_names (scope_of (view definition.now)))) }
{
    let place = Place {
        state: "",
        within: None,
    };
    let found = place.complain_unless(definition.is_object(), "", DefFault::NotObject);
    tell_found(found, &mut telling.told)?;
    tell_scope(alloc, &place, definition, &rows::MACHINE, telling)
}

/// Tells what is wrong with a scope, which may have the fields of those rows. Of one that is no object nothing is told.
#[cycle(tell)]
fn tell_scope<'a>(
    alloc: Global,
    place: &Place<'a>,
    scope: &'a Value,
    rows: &'static [Row],
    telling: &mut Telling<'a>,
) -> Result<(), OutOfMemory>
    ensures { OnOk result
        (Walks telling.old telling.new
        (model.scope_complaints (place_view place.now) (rows_view rows.now) (view scope.now))
        (all_names (scope_of (view scope.now)))) }
{
    if !scope.is_object() {
        return Ok(());
    }
    tell_fields(alloc, place, scope, rows, &mut telling.told)?;
    tell_found(
        check_target(place, "StartAt", scope, "StartAt", scope),
        &mut telling.told,
    )?;
    tell_states_in(alloc, scope, telling)
}

/// Tells what is wrong with the states in the field `States` of a scope.
#[cycle(tell)]
fn tell_states_in<'a>(
    alloc: Global,
    scope: &'a Value,
    telling: &mut Telling<'a>,
) -> Result<(), OutOfMemory>
    ensures { OnOk result
        (Walks telling.old telling.new
        (model.states_complaints_under (names_in scope.now) (fields_of scope.now))
        (names_among (states_under (codes "States") (fields_of scope.now)))) }
{
    let Value::Object(members) = scope else {
        return Ok(());
    };
    match members.get("States") {
        Some(states) => tell_object_of_states(alloc, states, scope, telling),
        None => Ok(()),
    }
}

/// Tells what is wrong with the states in a value of `States`.
#[cycle(tell)]
fn tell_object_of_states<'a>(
    alloc: Global,
    states: &'a Value,
    scope: &Value,
    telling: &mut Telling<'a>,
) -> Result<(), OutOfMemory>
    ensures { OnOk result
        (Walks telling.old telling.new
        (model.states_complaints (names_in scope.now) (view states.now))
        (names_among (states_in (view states.now)))) }
{
    let Value::Object(members) = states else {
        return Ok(());
    };
    tell_each_state(alloc, members, scope, telling)
}

/// Tells what is wrong with each member as a state of its name.
#[cycle(tell)]
fn tell_each_state<'a>(
    alloc: Global,
    members: &'a Map<String, Value>,
    scope: &Value,
    telling: &mut Telling<'a>,
) -> Result<(), OutOfMemory>
    ensures { OnOk result
        (Walks telling.old telling.new
        (model.each_state_complaints (names_in scope.now) (members_view members.now.entries))
        (names_among (each_state (members_view members.now.entries)))) }
{
    for (name, state) in members.iter() {
        tell_named_state(alloc, state, name, scope, telling)?;
    }
    Ok(())
}

/// Tells what is wrong with a state and its name.
#[cycle(tell)]
fn tell_named_state<'a>(
    alloc: Global,
    state: &'a Value,
    name: &'a str,
    scope: &Value,
    telling: &mut Telling<'a>,
) -> Result<(), OutOfMemory>
    ensures { OnOk result
        (Walks telling.old telling.new
        (named_told (names_in scope.now) name.now (view state.now))
        (name.now ∷ names_within (state_of (view state.now)))) }
{
    telling.names.push(name)?;
    tell_found(check_name(name), &mut telling.told)?;
    tell_state(alloc, state, name, scope, telling)
}

/// Tells what is wrong with a state of that name. The states that it may go on to are those of `scope`.
#[cycle(tell)]
fn tell_state<'a>(
    alloc: Global,
    state: &'a Value,
    name: &'a str,
    scope: &Value,
    telling: &mut Telling<'a>,
) -> Result<(), OutOfMemory>
    ensures { OnOk result
        (Walks telling.old telling.new
        (model.state_complaints (names_in scope.now) name.now (view state.now))
        (names_within (state_of (view state.now)))) }
{
    if !state.is_object() {
        return tell_no_object(name, &mut telling.told);
    }
    match type_of(state) {
        Some(state_type) => tell_typed(alloc, state, name, scope, state_type, telling),
        None => tell_untyped(alloc, state, name, &mut telling.told),
    }
}

/// Tells that a state of that name is no object.
fn tell_no_object<'a>(name: &'a str, told: &mut Vec<Complaint<'a>>) -> Result<(), OutOfMemory>
    ensures { OnOk result
        (Told told.old.items told.new.items
        (model.complaint_at (model.place_of_state name.now) [] NotObject ∷ [])) }
{
    let place = Place {
        state: name,
        within: None,
    };
    tell(place.complaint("", DefFault::NotObject), told)
}

/// Tells what is wrong with an object without a type as a state: only the fields of every state are looked at.
fn tell_untyped<'a>(
    alloc: Global,
    state: &Value,
    name: &'a str,
    told: &mut Vec<Complaint<'a>>,
) -> Result<(), OutOfMemory>
    ensures { OnOk result
        (Told told.old.items told.new.items (untyped_told name.now (fields_of state.now))) }
{
    let place = Place {
        state: name,
        within: None,
    };
    tell_rows(alloc, &place, state, &rows::EVERY_STATE, told)?;
    tell_found(check_type(&place, state), told)?;
    Ok(())
}

/// Checks that the text in `Type`, where there is one, is that of a type.
fn check_type<'a>(place: &Place<'a>, state: &Value) -> Result<(), Complaint<'a>>
    ensures { IsVerdict (model.unknown_type (place_view place.now)
        (model.text_at (codes "Type") (fields_of state.now))) result }
{
    match text_of(state, "Type") {
        Some(name) => {
            let is_known = StateType::named(name).is_some();
            place.complain_unless(is_known, "Type", DefFault::UnknownType)
        }
        None => Ok(()),
    }
}

/// Tells what is wrong with a state of that type: with its own fields first, then with its scopes.
#[cycle(tell)]
fn tell_typed<'a>(
    alloc: Global,
    state: &'a Value,
    name: &'a str,
    scope: &Value,
    state_type: StateType,
    telling: &mut Telling<'a>,
) -> Result<(), OutOfMemory>
    ensures { OnOk result
        (Walks telling.old telling.new
        (typed_told (type_view state_type) (names_in scope.now) name.now (fields_of state.now))
        (names_within (state_as state_type state.now))) }
{
    tell_own(alloc, state, name, scope, state_type, &mut telling.told)?;
    tell_nested(alloc, state, name, state_type, telling)
}

/// Tells what is wrong with a state of that type apart from its scopes.
fn tell_own<'a>(
    alloc: Global,
    state: &'a Value,
    name: &'a str,
    scope: &Value,
    state_type: StateType,
    told: &mut Vec<Complaint<'a>>,
) -> Result<(), OutOfMemory>
    ensures { OnOk result
        (Told told.old.items told.new.items
        (own_told (type_view state_type) (names_in scope.now) name.now (fields_of state.now))) }
{
    let place = Place {
        state: name,
        within: None,
    };
    tell_fields(alloc, &place, state, state_type.rows(), told)?;
    tell_type_rules(alloc, name, state, scope, state_type, told)?;
    Ok(())
}

/// Tells what is wrong with the scopes in a state of that type.
#[cycle(tell)]
fn tell_nested<'a>(
    alloc: Global,
    state: &'a Value,
    name: &'a str,
    state_type: StateType,
    telling: &mut Telling<'a>,
) -> Result<(), OutOfMemory>
    ensures { OnOk result
        (Walks telling.old telling.new
        (nested_told (type_view state_type) name.now (fields_of state.now))
        (names_within (state_as state_type state.now))) }
{
    match state_type {
        StateType::Parallel => tell_branches_in(alloc, state, name, telling),
        StateType::Map => tell_processor_in(alloc, state, name, telling),
        StateType::Pass
        | StateType::Task
        | StateType::Choice
        | StateType::Wait
        | StateType::Succeed
        | StateType::Fail => Ok(()),
    }
}

/// Tells what is wrong with the scopes in the field `Branches` of a state.
#[cycle(tell)]
fn tell_branches_in<'a>(
    alloc: Global,
    state: &'a Value,
    name: &'a str,
    telling: &mut Telling<'a>,
) -> Result<(), OutOfMemory>
    ensures { OnOk result
        (Walks telling.old telling.new
        (model.branches_complaints_under name.now (fields_of state.now))
        (names_of_scopes (branches_under (fields_of state.now)))) }
{
    let Value::Object(members) = state else {
        return Ok(());
    };
    match members.get("Branches") {
        Some(branches) => tell_branches(alloc, branches, name, telling),
        None => Ok(()),
    }
}

/// Tells what is wrong with the branches of a state in a value of `Branches`.
#[cycle(tell)]
fn tell_branches<'a>(
    alloc: Global,
    branches: &'a Value,
    name: &'a str,
    telling: &mut Telling<'a>,
) -> Result<(), OutOfMemory>
    ensures { OnOk result
        (Walks telling.old telling.new
        (model.branches_complaints name.now (view branches.now))
        (names_of_scopes (scopes_in (view branches.now)))) }
{
    let Value::Array(elements) = branches else {
        return Ok(());
    };
    tell_each_branch(alloc, elements, name, telling)
}

/// Tells what is wrong with each element as a branch of a state.
#[cycle(tell)]
fn tell_each_branch<'a>(
    alloc: Global,
    elements: &'a [Value],
    name: &'a str,
    telling: &mut Telling<'a>,
) -> Result<(), OutOfMemory>
    ensures { OnOk result
        (Walks telling.old telling.new
        (model.each_branch_complaints name.now (items_view elements.now))
        (names_of_scopes (each_scope (items_view elements.now)))) }
{
    for element in elements {
        tell_branch(alloc, element, name, telling)?;
    }
    Ok(())
}

/// Tells what is wrong with a branch of a state.
#[cycle(tell)]
fn tell_branch<'a>(
    alloc: Global,
    branch: &'a Value,
    name: &'a str,
    telling: &mut Telling<'a>,
) -> Result<(), OutOfMemory>
    ensures { OnOk result
        (Walks telling.old telling.new
        (branch_told name.now (view branch.now)) (all_names (scope_of (view branch.now)))) }
{
    let place = Place {
        state: name,
        within: Some("Branches"),
    };
    let found = check_branch(&place, branch);
    tell_found(found, &mut telling.told)?;
    tell_scope(alloc, &place, branch, &rows::BRANCH, telling)
}

/// Checks that a branch of a state is an object.
fn check_branch<'a>(place: &Place<'a>, branch: &Value) -> Result<(), Complaint<'a>>
    ensures { IsVerdict (branch_checked (place_view place.now) (view branch.now)) result }
{
    place.complain_unless(branch.is_object(), "Branches", wrong_kind(branch))
}

/// Tells what is wrong with the scope in the field `ItemProcessor` of a state, or in the one of its older name.
#[cycle(tell)]
fn tell_processor_in<'a>(
    alloc: Global,
    state: &'a Value,
    name: &'a str,
    telling: &mut Telling<'a>,
) -> Result<(), OutOfMemory>
    ensures { OnOk result
        (Walks telling.old telling.new
        (model.processor_complaints_under name.now (fields_of state.now))
        (all_names (processor_under (fields_of state.now)))) }
{
    let Value::Object(members) = state else {
        return Ok(());
    };
    tell_first_processor(alloc, members, name, telling)
}

/// Tells what is wrong with the first of the members that is a processor.
#[cycle(tell)]
fn tell_first_processor<'a>(
    alloc: Global,
    members: &'a Map<String, Value>,
    name: &'a str,
    telling: &mut Telling<'a>,
) -> Result<(), OutOfMemory>
    ensures { OnOk result
        (Walks telling.old telling.new
        (model.processor_complaints_under name.now (members_view members.now.entries))
        (all_names (processor_under (members_view members.now.entries)))) }
{
    for (field, value) in members.iter() {
        if is_processor(field) {
            let place = Place {
                state: name,
                within: Some(field),
            };
            return tell_scope(alloc, &place, value, &rows::PROCESSOR, telling);
        }
    }
    Ok(())
}
