//! Runs: a machine with what stands at its places.

ghost use Rattle.std.specs.Prelude.{◌≡◌, ◌≢◌, ◌↔◌, [], List, map, option_map, IfErr, IfOk, None, ℕ};
ghost use Rattle.std.specs.Option.{IsSome};
ghost use Rattle.asl_machine_table.specs.Table.{Shows, scope_in};
ghost use Rattle.asl_model.specs.Machine.{start_of};
ghost use Rattle.asl_model.specs.Run as model;
ghost use Rattle.asl_run.specs.Enabling.{found_view, open_in};
ghost use Rattle.asl_run.specs.Entries.{event_view, outcome_view};
ghost use Rattle.asl_run.specs.Stepping.{Steps};
ghost use Rattle.asl_run.specs.declared.stepping.StepRefusal.TheVariants as refusals;
ghost use Rattle.asl_run.specs.Nodes.{shown_at};
ghost use Rattle.asl_run.specs.Running.{HasTaken, IsDisabled, run_view, scope_of, step_of, there};
ghost use Rattle.asl_run.specs.Standing.{StandsIn, name_in};
ghost use Rattle.asl_tree.specs.View.{view};

use crate::enabling::add_places;
use crate::entries::{Entry, Event, Outcome, Place, Want};
use crate::nodes::Node;
use crate::standing::Standing;
use crate::stepping::{StepRefusal, take_step};
use asl_machine_table::Machine;
use asl_tree::{OutOfMemory, Tree};
use std::alloc::Global;
use std::marker::Model;

/// A run of a machine: what stands at its places. Contracts see the machine and the table of what stands there.
#[derive(Drop)]
pub struct Run<'m> {
    pub(crate) alloc: Global,
    pub(crate) machine: &'m Machine,
    pub(crate) standing: Standing,
}

impl<'m> Model for Run<'m> {
    ghost use Rattle.std.specs.Coded.{codes};
    ghost use Rattle.asl_machine_table.specs.Table.{scope_in};
    ghost use Rattle.asl_run.specs.Nodes.{shown_at};
    ghost use Rattle.asl_run.specs.Running.{Running};
    ghost use Rattle.asl_run.specs.Standing.{StandsIn};
    ghost use Rattle.asl_choice.specs.contracts.Test as tests;
    ghost use Rattle.asl_template.specs.contracts.template.Template as templates;
    ghost use Rattle.asl_tree.specs.contracts.Tree as trees;

    ghost Value = { Running };

    ghost coded = { Prim.hlevel (codes, tests.the_row.coded, templates.the_row.coded, trees.the_row.coded) };

    ghost view = { λ run. record { machine = run.machine.now; nodes = run.standing } };

    ghost invariant = { λ run. StandsIn (shown_at run.machine.now.names run.standing 0)
        (scope_in run.machine.now) };
}

/// The number of the machine's start state: the state 0 stands in the machine's own scope.
fn first_state(machine: &Machine) -> usize
    ensures { name_in machine.now.names result ≡ start_of (scope_in machine.now) }
{
    machine.is_shown();
    match machine.scope_of(0) {
        Some(scope) => scope.start,
        None => 0,
    }
}

/// A run of the machine with that input, about to enter its start state. A refusal, for want of memory, gives the input
/// back.
pub fn start<'m>(
    alloc: Global,
    machine: &'m Machine,
    input: Tree,
) -> Result<Run<'m>, (OutOfMemory, Tree)>
    ensures machine { IfOk result (λ run. run.machine ≡ machine.now) }
    ensures starts { IfOk result
        (λ run. run_view run ≡ model.start (scope_in machine.now) (view input)) }
    ensures returned { IfErr result (λ refusal. refusal.1 ≡ input) }
{
    machine.is_shown();
    match Standing::new(alloc, first_state(machine), input) {
        Ok(standing) => Ok(Run {
            alloc,
            machine,
            standing,
        }),
        Err(input) => Err((OutOfMemory, input)),
    }
}

impl<'m> Run<'m> {
    /// Takes the event: its entries, in order. A refusal gives the event back, and the run is as it was.
    ///
    /// `NoSuchPlace` where nothing stands at the event's place; `NotEnabled` where what stands there wants no such
    /// event; these two take no memory. `OutOfMemory` where an allocation was refused.
    pub fn step(&mut self, event: Event) -> Result<Vec<Entry<'m>>, (StepRefusal, Event)>
        ensures machine { self.new.machine ≡ self.old.machine }
        ensures taken { IfOk result (HasTaken self.old event self.new) }
        ensures unchanged { IfErr result (λ _. run_view self.new ≡ run_view self.old) }
        ensures returned { IfErr result (λ e. e.1 ≡ event) }
        ensures no_place { IfErr result
            (λ e. (e.0 ≡ refusals.NoSuchPlace) ↔ (there self.old event ≡ None)) }
        ensures not_enabled { IfErr result
            (λ e. (e.0 ≡ refusals.NotEnabled) ↔ IsDisabled self.old event) }
        ensures enabled { IfErr result
            (λ e. (e.0 ≡ refusals.OutOfMemory) ↔ IsSome (step_of self.old event)) }
    {
        self.stands();
        match self.take(&event) {
            Ok(entries) => Ok(entries),
            Err(refusal) => Err((refusal, event)),
        }
    }

    /// Takes the event. A refusal leaves the run as it was.
    fn take(&mut self, event: &Event) -> Result<Vec<Entry<'m>>, StepRefusal>
        ensures machine { self.new.machine ≡ self.old.machine }
        ensures steps { Steps self.old.machine (event_view event.now).place
            (event_view event.now).place (run_view self.old) (run_view self.new)
            (event_view event.now).action result }
    {
        self.machine.is_shown();
        take_step(
            self.alloc,
            self.machine,
            event.place(),
            event.answer(),
            &mut self.standing,
        )
    }

    /// The machine shows one of the definitions, and the run's states stand in the scopes of that. Reads nothing, and takes
    /// no memory.
    pub fn stands(&self)
        ensures shown { Shows self.now.machine (scope_of self.now) }
        ensures stands { StandsIn (run_view self.now) (scope_of self.now) }
    {
        self.machine.is_shown();
    }

    /// The places where an event is enabled, each with its kind, in lexicographic order, a place before those below
    /// it. A run that hasn't ended has one.
    #[tactic(auto, using(crate::proofs::SomeEnabled::some_enabled, crate::proofs::SomeEnabled::some_found, crate::proofs::Started::all_enabled,))]
    pub fn enabled(&self) -> Result<Vec<(Place, Want)>, OutOfMemory>
        ensures goes_on { IfOk result
            (λ found. model.outcome_of (run_view self.now) ≡ None → found.items ≢ []) }
        ensures exactly { IfOk result (λ found.
            map found_view found.items ≡ model.enabled (run_view self.now) (scope_of self.now)) }
    {
        self.stands();
        self.open_places()
    }

    /// The places where an event is wanted, each with its kind, a place before those below it.
    #[tactic(auto, using(crate::proofs::Started::all_open))]
    pub(crate) fn open_places(&self) -> Result<Vec<(Place, Want)>, OutOfMemory>
        ensures { IfOk result (λ found. (names : List (List ℕ))
            → map found_view found.items ≡ open_in (shown_at names self.now.nodes 0)) }
    {
        let mut place = Vec::new(self.alloc);
        let mut found = Vec::new(self.alloc);
        let nodes = self.standing.nodes();
        add_places(self.alloc, nodes, nodes.root(), &mut place, &mut found)?;
        Ok(found)
    }

    /// How the run has ended; none while it goes on.
    pub fn outcome(&self) -> Option<&Outcome>
        ensures { option_map (λ o. outcome_view o.now) result
            ≡ model.outcome_of (run_view self.now) }
    {
        let nodes = self.standing.nodes();
        match nodes.node(nodes.root()) {
            Node::Ended(outcome) => Some(outcome),
            Node::Ready(_) | Node::Waiting { .. } | Node::Split { .. } => None,
        }
    }
}
