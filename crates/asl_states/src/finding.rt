//! Finding the numbers of the states that a state's fields name.

ghost use Rattle.std.specs.Prelude.{◌≡◌, map, string_bytes};
ghost use Rattle.std.specs.List.{All};
ghost use Rattle.asl_states.specs.Machine.{branches_view, catcher_view, choice_rule_view, kind_view, settings_view, state_view};
ghost use Rattle.asl_states.specs.Numbered.{AreNumbered, IsNumbered};
ghost use Rattle.asl_states.specs.Targets.{EachCatcherTarget, EachChoiceTarget, EachKindTarget, EachSettingsTarget};

use crate::states::{Catcher, ChoiceRule, Kind, Settings, State};
use crate::target::Target;
use indexmap::IndexSet;

/// Finds the numbers of the states that the fields of the states name: that of a name is its position among the names, and
/// stays 0 where it isn't there. It takes no memory.
pub fn find_all(states: &mut Vec<State>, names: &IndexSet<String>)
    ensures same { map state_view states.new.items ≡ map state_view states.old.items }
    ensures numbered { All (AreNumbered (map string_bytes names.now.keys)) states.new.items }
{
    for state in states.iter_mut() {
        find_targets(state, names);
    }
}

/// Those that a state's fields name.
fn find_targets(state: &mut State, names: &IndexSet<String>)
    ensures same { state_view state.new ≡ state_view state.old }
    ensures numbered { AreNumbered (map string_bytes names.now.keys) state.new }
{
    find_in_settings(&mut state.settings, names);
    find_in_kind(&mut state.kind, names);
}

/// So in what states of several types have.
fn find_in_settings(settings: &mut Settings, names: &IndexSet<String>)
    ensures same { settings_view settings.new ≡ settings_view settings.old }
    ensures numbered { EachSettingsTarget (IsNumbered (map string_bytes names.now.keys))
        settings.new }
{
    if let Some(next) = &mut settings.next {
        next.find(names);
    }
    find_in_catchers(&mut settings.catchers, names);
}

/// So in catchers.
fn find_in_catchers(catchers: &mut Vec<Catcher>, names: &IndexSet<String>)
    ensures same { map catcher_view catchers.new.items ≡ map catcher_view catchers.old.items }
    ensures numbered { EachCatcherTarget (IsNumbered (map string_bytes names.now.keys))
        catchers.new.items }
{
    for catcher in catchers.iter_mut() {
        catcher.next.find(names);
    }
}

/// So in what a type adds.
fn find_in_kind(kind: &mut Kind, names: &IndexSet<String>)
    ensures same { kind_view kind.new ≡ kind_view kind.old }
    ensures numbered { EachKindTarget (IsNumbered (map string_bytes names.now.keys)) kind.new }
{
    match kind {
        Kind::Choice { choices, default } => {
            find_in_choices(choices, names);
            if let Some(default) = default {
                default.find(names);
            }
        }
        Kind::Parallel { branches } => find_in_branches(branches, names),
        Kind::Map { processor, .. } => processor.find(names),
        Kind::Pass { .. }
        | Kind::Task { .. }
        | Kind::Wait { .. }
        | Kind::Succeed
        | Kind::Fail { .. } => {}
    }
}

/// So in the rules of a Choice.
fn find_in_choices(choices: &mut Vec<ChoiceRule>, names: &IndexSet<String>)
    ensures same { map choice_rule_view choices.new.items ≡ map choice_rule_view choices.old.items }
    ensures numbered { EachChoiceTarget (IsNumbered (map string_bytes names.now.keys))
        choices.new.items }
{
    for choice in choices.iter_mut() {
        choice.next.find(names);
    }
}

/// So of the start states of branches.
fn find_in_branches(branches: &mut Vec<Target>, names: &IndexSet<String>)
    ensures same { branches_view branches.new.items ≡ branches_view branches.old.items }
    ensures numbered { All (IsNumbered (map string_bytes names.now.keys)) branches.new.items }
{
    for start in branches.iter_mut() {
        start.find(names);
    }
}
