//! The states of a state machine's definition, by name.
ghost use Rattle.std.specs.Prelude.{◌≡◌, ◌≤◌, ℕ, List, Some, OnOk, IfOk, if◌then◌else◌, bytes_eq};
ghost use Rattle.json.specs.Json.{Json};
ghost use Rattle.asl_places.specs.Found.{BeginsAt};
ghost use Rattle.asl_places.specs.Standing.{FindsMember, IsElement, IsMemberOf};
ghost use Rattle.asl_places.specs.Definition.{FindsStates, HasMachine, HasNestedMachine, HasState, HasStateInside, IsBranch, IsProcessor, text_value};
ghost use Rattle.asl_places.specs.Named.{first_of, named_in, state_named};
ghost use Rattle.asl_places.specs.Gathering.{Adds, AreBehind, HasMachineUnder, Lists, Puts};

use crate::outline::{Member, Outline, Spot};
use asl_tree::OutOfMemory;
use std::alloc::Global;
use std::collections::BTreeMap;

/// The states of a definition, at every depth, by name.
#[derive(Drop)]
pub struct States<'a> {
    names: BTreeMap<&'a str, Member>,
}

impl<'a> States<'a> {
    /// The states of the definition that an outlined text is: those in its `States`, and in the `States` of the
    /// machines in their `Branches`, `ItemProcessor` and `Iterator`, at every depth. Of a name that is repeated in one
    /// object the last counts; where states of several machines have one name, the first in the text has it. Refuses
    /// only where an allocation was refused.
    pub fn read(alloc: Global, outline: &Outline<'a>) -> Result<States<'a>, OutOfMemory>
        ensures { IfOk result (λ s. (j : Json) → BeginsAt outline.now.0 text_value j
            → FindsStates outline.now.0 text_value (state_named s)) }
    {
        let mut states = States {
            names: BTreeMap::new(alloc),
        };
        states.add_machine(alloc, outline, outline.root())?;
        Ok(states)
    }

    /// The state of that name.
    pub fn state(&self, name: &str) -> Option<Member>
        ensures { result ≡ state_named self.now name.now }
    {
        self.names.get(name).copied()
    }

    /// Adds the states of a machine, at every depth.
    fn add_machine(
        &mut self,
        alloc: Global,
        outline: &Outline<'a>,
        machine: Spot,
    ) -> Result<(), OutOfMemory>
        ensures { OnOk result ((j : Json) → BeginsAt outline.now.0 machine j
            → Adds (state_named self.old) (state_named self.new)
            (HasStateInside outline.now.0 machine)) }
    {
        let inner = self.add_states(alloc, outline, machine)?;
        for nested in &inner {
            self.add_machine(alloc, outline, *nested)?;
        }
        Ok(())
    }

    /// Adds a machine's own states. The answer is where the machines in these begin.
    fn add_states(
        &mut self,
        alloc: Global,
        outline: &Outline<'a>,
        machine: Spot,
    ) -> Result<Vec<Spot>, OutOfMemory>
        ensures states { IfOk result (λ _. (j : Json) → BeginsAt outline.now.0 machine j
            → Adds (state_named self.old) (state_named self.new)
            (HasState outline.now.0 machine)) }
        ensures machines { IfOk result (λ inner. (j : Json) → BeginsAt outline.now.0 machine j
            → Lists inner.items (HasNestedMachine outline.now.0 machine)) }
        ensures later { IfOk result (λ inner. AreBehind outline.now.0 machine.token inner.items) }
    {
        match outline.member(machine, "States") {
            Some(states) => self.add_members(alloc, outline, states.value),
            None => Ok(Vec::new(alloc)),
        }
    }

    /// Adds the members of the object at the spot as states. The answer is where the machines in these begin.
    fn add_members(
        &mut self,
        alloc: Global,
        outline: &Outline<'a>,
        object: Spot,
    ) -> Result<Vec<Spot>, OutOfMemory>
        ensures states { IfOk result (λ _. (j : Json) → BeginsAt outline.now.0 object j
            → Adds (state_named self.old) (state_named self.new)
            (IsMemberOf outline.now.0 object)) }
        ensures machines { IfOk result (λ inner. (j : Json) → BeginsAt outline.now.0 object j
            → Lists inner.items (HasMachineUnder outline.now.0 object)) }
        ensures later { IfOk result (λ inner. AreBehind outline.now.0 object.token inner.items) }
    {
        let mut inner = Vec::new(alloc);
        let scope = members_by_name(alloc, outline, object)?;
        let Some(mut members) = outline.members(object) else {
            return Ok(inner);
        };
        while let Some((name, state)) = members.next() {
            if scope.get(name).copied() == Some(state) {
                self.add(name, state)?;
                push_machines(outline, state.value, &mut inner)?;
            }
        }
        Ok(inner)
    }

    /// Adds a state; the first in the text of one name stays.
    fn add(&mut self, name: &'a str, state: Member) -> Result<(), OutOfMemory>
        ensures { OnOk result ((asked : List ℕ) → state_named self.new asked
            ≡ (if bytes_eq name.now asked then Some (first_of (state_named self.old asked) state)
            else state_named self.old asked)) }
    {
        let first = first_of(self.state(name), state);
        self.names.insert(name, first)?;
        Ok(())
    }
}

/// Of two states of one name the one that stands first in the text.
fn first_of(found: Option<Member>, state: Member) -> Member
    ensures { result ≡ first_of found state }
{
    match found {
        Some(other) if other.name.token < state.name.token => other,
        _ => state,
    }
}

/// The members of the object at the spot, of a repeated name the last. Any other value has none. Refuses only where an
/// allocation was refused.
pub fn members_by_name<'a>(
    alloc: Global,
    outline: &Outline<'a>,
    object: Spot,
) -> Result<BTreeMap<&'a str, Member>, OutOfMemory>
    ensures { IfOk result (λ m. (j : Json) → BeginsAt outline.now.0 object j
        → (name : List ℕ) → FindsMember outline.now.0 object name (named_in m name)) }
{
    let mut names = BTreeMap::new(alloc);
    let Some(mut members) = outline.members(object) else {
        return Ok(names);
    };
    while let Some((name, member)) = members.next() {
        names.insert(name, member)?;
    }
    Ok(names)
}

/// Puts the machines in a state to those that are still to come.
fn push_machines(
    outline: &Outline<'_>,
    state: Spot,
    machines: &mut Vec<Spot>,
) -> Result<(), OutOfMemory>
    ensures put { OnOk result ((j : Json) → BeginsAt outline.now.0 state j
        → Puts machines.old.items machines.new.items (HasMachine outline.now.0 state)) }
    ensures later { OnOk result ((before : ℕ) → before ≤ state.token
        → AreBehind outline.now.0 before machines.old.items
        → AreBehind outline.now.0 before machines.new.items) }
{
    push_processor(outline, state, "ItemProcessor", machines)?;
    push_processor(outline, state, "Iterator", machines)?;
    push_branches(outline, state, machines)
}

/// Puts the machine that a state has in that field behind the others.
fn push_processor(
    outline: &Outline<'_>,
    state: Spot,
    field: &str,
    machines: &mut Vec<Spot>,
) -> Result<(), OutOfMemory>
    ensures put { OnOk result ((j : Json) → BeginsAt outline.now.0 state j
        → Puts machines.old.items machines.new.items (IsProcessor outline.now.0 state field.now)) }
    ensures later { OnOk result ((before : ℕ) → before ≤ state.token
        → AreBehind outline.now.0 before machines.old.items
        → AreBehind outline.now.0 before machines.new.items) }
{
    if let Some(machine) = outline.member(state, field) {
        machines.push(machine.value)?;
    }
    Ok(())
}

/// Puts the branches of a state behind the others.
fn push_branches(
    outline: &Outline<'_>,
    state: Spot,
    machines: &mut Vec<Spot>,
) -> Result<(), OutOfMemory>
    ensures put { OnOk result ((j : Json) → BeginsAt outline.now.0 state j
        → Puts machines.old.items machines.new.items (IsBranch outline.now.0 state)) }
    ensures later { OnOk result ((before : ℕ) → before ≤ state.token
        → AreBehind outline.now.0 before machines.old.items
        → AreBehind outline.now.0 before machines.new.items) }
{
    if let Some(branches) = outline.member(state, "Branches") {
        push_elements(outline, branches.value, machines)?;
    }
    Ok(())
}

/// Puts the elements of the list at the spot behind the others.
fn push_elements(
    outline: &Outline<'_>,
    list: Spot,
    machines: &mut Vec<Spot>,
) -> Result<(), OutOfMemory>
    ensures put { OnOk result ((j : Json) → BeginsAt outline.now.0 list j
        → Puts machines.old.items machines.new.items (IsElement outline.now.0 list)) }
    ensures later { OnOk result ((before : ℕ) → before ≤ list.token
        → AreBehind outline.now.0 before machines.old.items
        → AreBehind outline.now.0 before machines.new.items) }
{
    let Some(mut elements) = outline.items(list) else {
        return Ok(());
    };
    while let Some(element) = elements.next() {
        machines.push(element)?;
    }
    Ok(())
}
