// Finding the scopes of a state, and building the names of their start states (States Language, "Parallel State", "Map
// State").

ghost use Rattle.std.specs.Prelude.{◌≡◌, IfOk, string_bytes, option_map};
ghost use Rattle.std.specs.Option.{unwrap_or};
ghost use Rattle.serde_json.specs.View.{view, items_view, members_view};
ghost use Rattle.asl_model.specs.Machine.{empty_scope, start_of};
ghost use Rattle.asl_model.specs.Numbering.{scopes_outline};
ghost use Rattle.asl_model.specs.StandsFor.{scope_of, each_scope, branches_under, processor_under, is_processor as model_is_processor};
ghost use Rattle.asl_states.specs.Machine.{branches_view};
ghost use Rattle.asl_fields.specs.Reading.{fields_of};

use asl_fields::{build_text_or_empty, elements_of};
use asl_states::Target;
use asl_tree::OutOfMemory;
use serde_json::{Map, Value};
use std::alloc::Global;

/// The start states of a Parallel's branches.
pub(crate) fn build_branch_starts(alloc: Global, state: &Value) -> Result<Vec<Target>, OutOfMemory>
    ensures { IfOk result (λ starts. branches_view starts.items
        ≡ scopes_outline (branches_under (fields_of state.now))) }
{
    build_starts(alloc, elements_of(state, "Branches"))
}

/// The start states of scopes.
fn build_starts(alloc: Global, scopes: &[Value]) -> Result<Vec<Target>, OutOfMemory>
    ensures { IfOk result (λ starts. branches_view starts.items
        ≡ scopes_outline (each_scope (items_view scopes.now))) }
{
    let mut starts = Vec::with_capacity(alloc, scopes.len())?;
    for scope in scopes {
        starts.push(Target::new(build_start(alloc, scope)?))?;
    }
    Ok(starts)
}

/// The name of the start state of a scope.
fn build_start(alloc: Global, scope: &Value) -> Result<String, OutOfMemory>
    ensures { IfOk result (λ start. string_bytes start ≡ start_of (scope_of (view scope.now))) }
{
    build_text_or_empty(alloc, scope, "StartAt")
}

/// The name of the start state of a Map's processor.
pub(crate) fn build_processor_start(alloc: Global, state: &Value) -> Result<String, OutOfMemory>
    ensures { IfOk result
        (λ start. string_bytes start ≡ start_of (processor_under (fields_of state.now))) }
{
    match state.as_object() {
        Some(members) => build_start_of_processor(alloc, members),
        None => Ok(String::new(alloc)),
    }
}

/// The same for the fields of the Map.
fn build_start_of_processor(
    alloc: Global,
    members: &Map<String, Value>,
) -> Result<String, OutOfMemory>
    ensures { IfOk result (λ start. string_bytes start
        ≡ start_of (processor_under (members_view members.now.entries))) }
{
    match processor_of(members) {
        Some(processor) => build_start(alloc, processor),
        None => Ok(String::new(alloc)),
    }
}

/// The processor among the fields of a Map: `ItemProcessor`, or `Iterator` as its older name.
pub(crate) fn processor_of(members: &Map<String, Value>) -> Option<&Value>
    ensures { unwrap_or (option_map (λ v. scope_of (view v.now)) result) empty_scope
        ≡ processor_under (members_view members.now.entries) }
{
    for (name, value) in members.iter() {
        if is_processor(name) {
            return Some(value);
        }
    }
    None
}

/// Whether a Map's field of that name is its processor.
pub(crate) fn is_processor(name: &str) -> bool
    ensures { result ≡ model_is_processor name.now }
{
    name == "ItemProcessor" || name == "Iterator"
}
