// Reading the scopes of a definition, which nest: the machine, the branches of Parallels and the processors of Maps
// (States Language, "Structure of a State Machine", "Parallel State", "Map State"). Each rule is checked, and the states
// are added in the order of their numbers: each is followed by those of its own scopes.

ghost use Rattle.std.specs.Prelude.{◌≡◌, ◌∷◌, [], Some, Err, None, IfOk, OnOk, codes};
ghost use Rattle.serde_json.specs.View.{view, items_view, members_view};
ghost use Rattle.asl_model.specs.Numbering.{outline, standing_in, standing_inside, standing_each};
ghost use Rattle.asl_model.specs.StandsFor as model;
ghost use Rattle.asl_model.specs.StandsFor.{branches_complaints_under, processor_complaints_under};
ghost use Rattle.asl_model.specs.StandsFor.{scope_of, states_in, states_under, each_state, state_of, scopes_in, each_scope, branches_under, processor_under};
ghost use Rattle.asl_machine.specs.Built.{owner_view, stands_at, standing_with, state_as, standing_at, Added};
ghost use Rattle.asl_machine.specs.Reading.{AreChecked, state_told, names_in, own_told, nested_told, typed_told, untyped_told, named_told, branch_told, definition_told};
ghost use Rattle.asl_fields.specs.Reading.{fields_of};
ghost use Rattle.asl_states.specs.Machine.{state_view};
ghost use Rattle.asl_fields.specs.Rows.{rows_view, type_view};
ghost use Rattle.asl_fields.specs.Verdicts.{IsVerdict, place_view};

use crate::building::{BuiltState, Home, add_state, make_room};
use crate::kinds::{read_kind, type_of};
use crate::scopes::is_processor;
use crate::settings::read_settings;
use crate::state_checking::{check_target, check_type_rules};
use asl_fields::rows::{self, Row, StateType};
use asl_fields::{Complaint, DefFault, Place, check_fields, check_rows, text_or_empty, wrong_kind};
use asl_states::State;
use serde_json::{Map, Value};
use std::alloc::Global;

/// How many characters the name of a state may have.
const LONGEST_NAME: usize = 80;

/// Reads a definition: finds a broken rule where there is one, and else adds its states. That the names of all states
/// differ, and how many they are, is no matter of this reading.
pub(crate) fn read_states<'a>(
    alloc: Global,
    definition: &'a Value,
    built: &mut Vec<BuiltState<'a>>,
) -> Result<(), Complaint<'a>>
    ensures rules { IsVerdict (definition_told (view definition.now)) result }
    ensures added { OnOk result
        (Added built.old.items built.new.items
        (standing_in None (scope_of (view definition.now)))) }
{
    let place = Place {
        state: "",
        within: None,
    };
    place.complain_unless(definition.is_object(), "", DefFault::NotObject)?;
    read_scope(alloc, &place, definition, &rows::MACHINE, None, built)
}

/// Reads a scope, which may have the fields of those rows. Of one that is no object nothing is told.
#[cycle(read)]
fn read_scope<'a>(
    alloc: Global,
    place: &Place<'a>,
    scope: &'a Value,
    rows: &'static [Row],
    owner: Option<(&'a str, usize)>,
    built: &mut Vec<BuiltState<'a>>,
) -> Result<(), Complaint<'a>>
    ensures rules { AreChecked (rows_view rows.now)
        → IsVerdict (model.scope_complaints (place_view place.now)
        (rows_view rows.now) (view scope.now)) result }
    ensures added { OnOk result
        (Added built.old.items built.new.items
        (standing_in (owner_view owner.entry) (scope_of (view scope.now)))) }
{
    if !scope.is_object() {
        return Ok(());
    }
    check_fields(place, scope, rows)?;
    check_target(place, "StartAt", scope, "StartAt", scope)?;
    let home = Home {
        start: text_or_empty(scope, "StartAt"),
        owner,
    };
    read_states_in(alloc, scope, home, built)
}

/// Reads the states in the field `States` of a scope.
#[cycle(read)]
fn read_states_in<'a>(
    alloc: Global,
    scope: &'a Value,
    home: Home<'a>,
    built: &mut Vec<BuiltState<'a>>,
) -> Result<(), Complaint<'a>>
    ensures rules { IsVerdict
        (model.states_complaints_under (names_in scope.now) (fields_of scope.now)) result }
    ensures added { OnOk result
        (Added built.old.items built.new.items
        (standing_at home.entry (states_under (codes "States") (fields_of scope.now)))) }
{
    let Value::Object(members) = scope else {
        return Ok(());
    };
    match members.get("States") {
        Some(states) => read_object_of_states(alloc, states, scope, home, built),
        None => Ok(()),
    }
}

/// Reads the states in a value of `States`.
#[cycle(read)]
fn read_object_of_states<'a>(
    alloc: Global,
    states: &'a Value,
    scope: &Value,
    home: Home<'a>,
    built: &mut Vec<BuiltState<'a>>,
) -> Result<(), Complaint<'a>>
    ensures rules { IsVerdict
        (model.states_complaints (names_in scope.now) (view states.now)) result }
    ensures added { OnOk result
        (Added built.old.items built.new.items
        (standing_at home.entry (states_in (view states.now)))) }
{
    let Value::Object(members) = states else {
        return Ok(());
    };
    let place = Place {
        state: "",
        within: None,
    };
    place.or_out_of_memory("", make_room(members.len(), built))?;
    read_each_state(alloc, members, scope, home, built)
}

/// Reads each member as a state of its name.
#[cycle(read)]
fn read_each_state<'a>(
    alloc: Global,
    members: &'a Map<String, Value>,
    scope: &Value,
    home: Home<'a>,
    built: &mut Vec<BuiltState<'a>>,
) -> Result<(), Complaint<'a>>
    ensures rules { IsVerdict (model.each_state_complaints
        (names_in scope.now) (members_view members.now.entries)) result }
    ensures added { OnOk result
        (Added built.old.items built.new.items
        (standing_at home.entry (each_state (members_view members.now.entries)))) }
{
    for (name, state) in members.iter() {
        read_named_state(alloc, state, name, scope, home, built)?;
    }
    Ok(())
}

/// Checks the name of a state, and reads the state.
#[cycle(read)]
fn read_named_state<'a>(
    alloc: Global,
    state: &'a Value,
    name: &'a str,
    scope: &Value,
    home: Home<'a>,
    built: &mut Vec<BuiltState<'a>>,
) -> Result<(), Complaint<'a>>
    ensures rules { IsVerdict (named_told (names_in scope.now) name.now (view state.now)) result }
    ensures added { OnOk result
        (Added built.old.items built.new.items
        (standing_with home.entry name.now (state_of (view state.now)))) }
{
    check_name(name)?;
    read_state(alloc, state, name, scope, home, built)
}

/// Checks that the name of a state isn't too long.
pub(crate) fn check_name<'a>(name: &'a str) -> Result<(), Complaint<'a>>
    ensures { IsVerdict (model.name_complaints name.now) result }
{
    let place = Place {
        state: name,
        within: None,
    };
    place.complain_unless(
        characters(name) <= LONGEST_NAME,
        "States",
        DefFault::NameTooLong,
    )
}

/// How many Unicode characters a text has: as many as bytes that don't continue one.
fn characters(text: &str) -> usize
    ensures { result ≡ model.characters text.now }
{
    text.as_bytes()
        .iter()
        .filter(|byte| **byte / 64 != 2)
        .count()
}

/// Reads a state of that name. The states that it may go on to are those of `scope`.
#[cycle(read)]
fn read_state<'a>(
    alloc: Global,
    state: &'a Value,
    name: &'a str,
    scope: &Value,
    home: Home<'a>,
    built: &mut Vec<BuiltState<'a>>,
) -> Result<(), Complaint<'a>>
    ensures rules { IsVerdict
        (model.state_complaints (names_in scope.now) name.now (view state.now)) result }
    ensures added { OnOk result
        (Added built.old.items built.new.items
        (standing_with home.entry name.now (state_of (view state.now)))) }
{
    if !state.is_object() {
        let place = Place {
            state: name,
            within: None,
        };
        return Err(place.complaint("", DefFault::NotObject));
    }
    match type_of(state) {
        Some(state_type) => read_typed(alloc, state, name, scope, state_type, home, built),
        None => Err(told_without_type(state, name)),
    }
}

/// Reads a state of that type: its own fields and rules first, then its scopes.
#[cycle(read)]
fn read_typed<'a>(
    alloc: Global,
    state: &'a Value,
    name: &'a str,
    scope: &Value,
    state_type: StateType,
    home: Home<'a>,
    built: &mut Vec<BuiltState<'a>>,
) -> Result<(), Complaint<'a>>
    ensures rules { IsVerdict (typed_told (type_view state_type)
        (names_in scope.now) name.now (fields_of state.now)) result }
    ensures added { OnOk result
        (Added built.old.items built.new.items
        (standing_with home.entry name.now (state_as state_type state.now))) }
{
    read_own(alloc, state, name, scope, state_type, home, built)?;
    read_nested(alloc, state, name, state_type, built)
}

/// Reads a state of that type without its scopes, and adds it.
fn read_own<'a>(
    alloc: Global,
    state: &'a Value,
    name: &'a str,
    scope: &Value,
    state_type: StateType,
    home: Home<'a>,
    built: &mut Vec<BuiltState<'a>>,
) -> Result<(), Complaint<'a>>
    ensures rules { IsVerdict (own_told (type_view state_type)
        (names_in scope.now) name.now (fields_of state.now)) result }
    ensures added { OnOk result
        (Added built.old.items built.new.items
        (stands_at home.entry name.now (state_as state_type state.now) ∷ [])) }
{
    let place = Place {
        state: name,
        within: None,
    };
    check_fields(&place, state, state_type.rows())?;
    let read = read_outline(alloc, state, name, scope, state_type)?;
    place.or_out_of_memory("", add_state(alloc, name, read, home, built))
}

/// Reads a state of that type without its scopes: its rules, and the fields that are read.
fn read_outline<'a>(
    alloc: Global,
    state: &'a Value,
    name: &'a str,
    scope: &Value,
    state_type: StateType,
) -> Result<State, Complaint<'a>>
    ensures state { IfOk result
        (λ read. state_view read ≡ outline (state_as state_type state.now)) }
    ensures told { IsVerdict (state_told (type_view state_type) name.now
        (names_in scope.now) (fields_of state.now)) result }
{
    check_type_rules(name, state, scope, state_type)?;
    let settings = read_settings(alloc, name, state_type, state, scope)?;
    let kind = read_kind(alloc, name, state_type, state, scope)?;
    Ok(State { settings, kind })
}

/// What is told of an object without a type as a state: only the fields of every state are looked at.
fn told_without_type<'a>(state: &Value, name: &'a str) -> Complaint<'a>
    requires { model.type_of (fields_of state.now) ≡ None }
    ensures { IsVerdict {A = Unit {0}} (untyped_told name.now (fields_of state.now)) (Err result) }
{
    let place = Place {
        state: name,
        within: None,
    };
    match check_rows(&place, state, &rows::EVERY_STATE) {
        Ok(()) => place.complaint("Type", DefFault::UnknownType),
        Err(complaint) => complaint,
    }
}

/// Reads the scopes in a state of that type.
#[cycle(read)]
fn read_nested<'a>(
    alloc: Global,
    state: &'a Value,
    name: &'a str,
    state_type: StateType,
    built: &mut Vec<BuiltState<'a>>,
) -> Result<(), Complaint<'a>>
    ensures rules { IsVerdict
        (nested_told (type_view state_type) name.now (fields_of state.now)) result }
    ensures added { OnOk result
        (Added built.old.items built.new.items
        (standing_inside name.now (state_as state_type state.now))) }
{
    match state_type {
        StateType::Parallel => read_branches_in(alloc, state, name, built),
        StateType::Map => read_processor_in(alloc, state, name, built),
        StateType::Pass
        | StateType::Task
        | StateType::Choice
        | StateType::Wait
        | StateType::Succeed
        | StateType::Fail => Ok(()),
    }
}

/// Reads the scopes in the field `Branches` of a state.
#[cycle(read)]
fn read_branches_in<'a>(
    alloc: Global,
    state: &'a Value,
    name: &'a str,
    built: &mut Vec<BuiltState<'a>>,
) -> Result<(), Complaint<'a>>
    ensures rules { IsVerdict (branches_complaints_under name.now (fields_of state.now)) result }
    ensures added { OnOk result
        (Added built.old.items built.new.items
        (standing_each name.now 0 (branches_under (fields_of state.now)))) }
{
    let Value::Object(members) = state else {
        return Ok(());
    };
    match members.get("Branches") {
        Some(branches) => read_branches(alloc, branches, name, built),
        None => Ok(()),
    }
}

/// Reads the branches of a state in a value of `Branches`.
#[cycle(read)]
fn read_branches<'a>(
    alloc: Global,
    branches: &'a Value,
    name: &'a str,
    built: &mut Vec<BuiltState<'a>>,
) -> Result<(), Complaint<'a>>
    ensures rules { IsVerdict (model.branches_complaints name.now (view branches.now)) result }
    ensures added { OnOk result
        (Added built.old.items built.new.items
        (standing_each name.now 0 (scopes_in (view branches.now)))) }
{
    let Value::Array(elements) = branches else {
        return Ok(());
    };
    read_each_branch(alloc, elements, name, built)
}

/// Reads each element as a branch of a state, numbered from 0.
#[cycle(read)]
fn read_each_branch<'a>(
    alloc: Global,
    elements: &'a [Value],
    name: &'a str,
    built: &mut Vec<BuiltState<'a>>,
) -> Result<(), Complaint<'a>>
    ensures rules { IsVerdict
        (model.each_branch_complaints name.now (items_view elements.now)) result }
    ensures added { OnOk result
        (Added built.old.items built.new.items
        (standing_each name.now 0 (each_scope (items_view elements.now)))) }
{
    for (number, element) in elements.iter().enumerate() {
        read_branch(alloc, element, name, number, built)?;
    }
    Ok(())
}

/// Reads the branch of a state that has that number.
#[cycle(read)]
fn read_branch<'a>(
    alloc: Global,
    branch: &'a Value,
    name: &'a str,
    number: usize,
    built: &mut Vec<BuiltState<'a>>,
) -> Result<(), Complaint<'a>>
    ensures rules { IsVerdict (branch_told name.now (view branch.now)) result }
    ensures added { OnOk result
        (Added built.old.items built.new.items
        (standing_in (Some (name.now, number)) (scope_of (view branch.now)))) }
{
    let place = Place {
        state: name,
        within: Some("Branches"),
    };
    if !branch.is_object() {
        return Err(place.complaint("Branches", wrong_kind(branch)));
    }
    let owner = Some((name, number));
    read_scope(alloc, &place, branch, &rows::BRANCH, owner, built)
}

/// Reads the scope in the field `ItemProcessor` of a state, or in the one of its older name.
#[cycle(read)]
fn read_processor_in<'a>(
    alloc: Global,
    state: &'a Value,
    name: &'a str,
    built: &mut Vec<BuiltState<'a>>,
) -> Result<(), Complaint<'a>>
    ensures rules { IsVerdict (processor_complaints_under name.now (fields_of state.now)) result }
    ensures added { OnOk result
        (Added built.old.items built.new.items
        (standing_in (Some (name.now, 0)) (processor_under (fields_of state.now)))) }
{
    let Value::Object(members) = state else {
        return Ok(());
    };
    read_first_processor(alloc, members, name, built)
}

/// Reads the first of the members that is a processor.
#[cycle(read)]
fn read_first_processor<'a>(
    alloc: Global,
    members: &'a Map<String, Value>,
    name: &'a str,
    built: &mut Vec<BuiltState<'a>>,
) -> Result<(), Complaint<'a>>
    ensures rules { IsVerdict
        (processor_complaints_under name.now (members_view members.now.entries)) result }
    ensures added { OnOk result
        (Added built.old.items built.new.items
        (standing_in (Some (name.now, 0)) (processor_under (members_view members.now.entries)))) }
{
    for (field, value) in members.iter() {
        if is_processor(field) {
            let place = Place {
                state: name,
                within: Some(field),
            };
            let owner = Some((name, 0));
            return read_scope(alloc, &place, value, &rows::PROCESSOR, owner, built);
        }
    }
    Ok(())
}
