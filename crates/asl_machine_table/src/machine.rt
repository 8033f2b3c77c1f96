//! Machines: one table of states, by number and by name.

ghost use Rattle.std.specs.Prelude.{◌≡◌, length, option_map, slice_get, position, bytes_eq, map, string_bytes};
ghost use Rattle.asl_model.specs.Machine as model;
ghost use Rattle.asl_machine_table.specs.Table.{IsWhole, Shows, scope_in, states_in, table_view};
ghost use Rattle.asl_states.specs.Machine.{state_view, scope_view, target_name};

use asl_states::{Scope, State, Target, find_all};
use indexmap::IndexSet;
use std::marker::Model;

/// A state machine: all its states in one table. Contracts see what it holds, and by `scope_in` the machine of the
/// definitions that it shows.
///
/// A state's number is its position, counted from 0: the states of a scope in byte order of their names, each followed
/// by those of its own scopes, in order.
#[derive(Drop)]
pub struct Machine {
    names: IndexSet<String>,
    states: Vec<State>,
    scopes: Vec<Scope>,
}

impl Model for Machine {
    ghost use Rattle.std.specs.Prelude.{map, string_bytes};
    ghost use Rattle.std.specs.Coded.{codes};
    ghost use Rattle.asl_choice.specs.contracts.Test as tests;
    ghost use Rattle.asl_template.specs.contracts.template.Template as templates;
    ghost use Rattle.asl_tree.specs.contracts.Tree as trees;
    ghost use Rattle.asl_machine_table.specs.Held.{Held};
    ghost use Rattle.asl_machine_table.specs.Table.{Shows, scope_in};

    ghost Value = { Held };

    ghost coded = { Prim.hlevel (codes, tests.the_row.coded, templates.the_row.coded, trees.the_row.coded) };

    ghost view = { λ m. record {
      names = map string_bytes m.names.keys;
      states = m.states.items;
      placements = m.scopes.items;
    } };

    ghost invariant = { λ m. let held : Held = record {
      names = map string_bytes m.names.keys;
      states = m.states.items;
      placements = m.scopes.items;
    } in Shows held (scope_in held) };
}

impl Machine {
    /// A machine of those names and states by number, each with the scope that it stands in. The states that fields
    /// name get their numbers.
    pub fn new(names: IndexSet<String>, states: Vec<State>, scopes: Vec<Scope>) -> Machine
        requires whole { IsWhole (record {
          names = map string_bytes names.keys;
          states = map state_view states.items;
          placements = map scope_view scopes.items;
        }) }
        ensures table { table_view result ≡ record {
          names = map string_bytes names.keys;
          states = map state_view states.items;
          placements = map scope_view scopes.items;
        } }
    {
        let mut states = states;
        find_all(&mut states, &names);
        Machine {
            names,
            states,
            scopes,
        }
    }

    /// The machine shows one of the definitions, and one alone. Reads nothing, and takes no memory.
    #[tactic(auto, using(crate::proofs::Rebuilt::alone))]
    pub fn is_shown(&self)
        ensures shown { Shows self.now (scope_in self.now) }
        ensures alone { (m : model.Scope) → Shows self.now m → m ≡ scope_in self.now }
    {
        // The field is named for what is always true of it; nothing is read.
        let _ = &self.names;
    }

    /// The number of the state of that name.
    pub fn state_named(&self, name: &str) -> Option<usize>
        ensures number { result ≡ position (bytes_eq name.now) (table_view self.now).names }
    {
        self.names.get_index_of(name)
    }

    /// The number of the state that a target names: its own one where the name stands there, as it does for each target of
    /// the machine's states. No other one is looked up by its name.
    pub fn state_of(&self, target: &Target) -> Option<usize>
        ensures number { result
            ≡ position (bytes_eq (target_name target.now)) (table_view self.now).names }
    {
        self.is_shown();
        match self.name(target.number) {
            Some(name) if name == target.name.as_str() => Some(target.number),
            _ => self.state_named(&target.name),
        }
    }

    /// How many states there are.
    pub fn states(&self) -> usize
        ensures number { result ≡ length (table_view self.now).states }
    {
        self.states.len()
    }

    /// The state of that number, without the states of its scopes, which have numbers of their own.
    pub fn state(&self, number: usize) -> Option<&State>
        ensures state { option_map (λ s. state_view s.now) result
            ≡ slice_get (table_view self.now).states number }
        ensures stored { option_map (λ s. s.now) result ≡ slice_get (states_in self.now) number }
    {
        self.states.get(number)
    }

    /// The name of the state of that number.
    pub fn name(&self, number: usize) -> Option<&str>
        ensures name { option_map (λ n. n.now) result
            ≡ slice_get (table_view self.now).names number }
    {
        match self.names.get_index(number) {
            Some(name) => Some(name),
            None => None,
        }
    }

    /// The scope in which the state of that number stands.
    pub fn scope_of(&self, number: usize) -> Option<&Scope>
        ensures scope { option_map (λ s. scope_view s.now) result
            ≡ slice_get (table_view self.now).placements number }
    {
        self.scopes.get(number)
    }
}
