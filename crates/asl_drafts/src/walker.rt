//! A draft whose states are walked until nothing changes.

ghost use Rattle.asl_drafts.specs.Walker.{HaveWoken, PredecessorsWait, ReaderWaits, StaysWaiting};

use crate::draft::{Draft, Target};
use crate::predecessors::{Origin, Predecessors};
use crate::targets::target_of;
use crate::waiting::Waiting;
use asl_machine_table::Machine;
use asl_state_edges::{Edge, Step};
use asl_tree::OutOfMemory;

/// A draft, the states that are still to be walked, and what has flowed into its shapes.
#[derive(Drop)]
pub struct Walker {
    pub draft: Draft,
    pub waiting: Waiting,
    pub predecessors: Predecessors,
}

impl Walker {
    ghost use Rattle.std.specs.Prelude.{◌≡◌, ◌<◌, length, true, IfOk, OnOk, Some};
    ghost use Rattle.asl_model.specs.Certificate.{Declared};
    ghost use Rattle.asl_model.specs.Numbering.{Table};
    ghost use Rattle.asl_draft_laws.specs.Drafts.{step_taken, steps_taken, taken_at, Row};
    ghost use Rattle.asl_state_edges.specs.View.{edge_view, step_view, steps_of, AreStepsBelow, IsStepBelow};
    ghost use Rattle.asl_machine_table.specs.Table.{table_view};
    ghost use Rattle.asl_drafts.specs.Calm.{IsCalm};
    ghost use Rattle.asl_drafts.specs.Underway.{IsCalmAfter, OthersStayCalm, StepsOn};
    ghost use Rattle.asl_numbered.specs.Expansion.{shape_at, Keeps};
    ghost use Rattle.asl_drafts.specs.Drafted.{draft_view, room, target_view};
    ghost use Rattle.asl_drafts.specs.Entries.{Makes};

    /// Takes in what flows at the steps of the state of that number, in their order, and says whether a shape was changed.
    /// What flowed at each step is remembered; where a rule is broken, nothing flows. Each other state that waited or was at
    /// rest still waits or is at rest then. So does the state itself, if these are its steps and no rule of its own is broken.
    pub fn take_steps(
        &mut self,
        machine: &Machine,
        number: usize,
        steps: &[Step],
    ) -> Result<bool, OutOfMemory>
        requires { AreStepsBelow (length self.old.draft.store) steps.now }
        ensures takes { IfOk result
            (λ changed. Makes room (steps_taken (table_view machine.now) number
            (steps_of self.old.draft.store steps.now))
            (draft_view self.old.draft) changed (draft_view self.new.draft)) }
        ensures waits { StaysWaiting self.old.waiting self.new.waiting }
        ensures others { IfOk result (λ changed. OthersStayCalm number self.old self.new) }
        ensures walked { IfOk result
            (λ changed. IsCalmAfter (table_view machine.now) number
            (steps_of self.old.draft.store steps.now) self.old self.new) }
        ensures keeps { Keeps self.old.draft.store self.new.draft.store }
    {
        let mut changed = false;
        for (place, step) in steps.iter().enumerate() {
            let origin = Origin {
                state: number,
                place,
            };
            if self.take_step(machine, origin, step)? {
                changed = true;
            }
        }
        Ok(changed)
    }

    /// Takes in what flows at the step of that origin, if something does, and says whether a shape was changed.
    fn take_step(
        &mut self,
        machine: &Machine,
        origin: Origin,
        step: &Step,
    ) -> Result<bool, OutOfMemory>
        requires { IsStepBelow (length self.old.draft.store) step.now }
        ensures takes { IfOk result
            (λ changed. Makes room (step_taken (table_view machine.now) origin.state
            (step_view self.old.draft.store step.now))
            (draft_view self.old.draft) changed (draft_view self.new.draft)) }
        ensures waits { StaysWaiting self.old.waiting self.new.waiting }
        ensures others { IfOk result (λ changed. OthersStayCalm origin.state self.old self.new) }
        ensures walked { IfOk result
            (λ changed. StepsOn (table_view machine.now) origin
            (step_view self.old.draft.store step.now) self.old self.new) }
        ensures keeps { Keeps self.old.draft.store self.new.draft.store }
    {
        match step {
            Step::Flows(edge) => self.take_edge(machine, origin, edge),
            Step::Breaks(_) => Ok(false),
        }
    }

    /// Takes in what flows along the edge of that origin, remembers it, and says whether a shape was changed.
    fn take_edge(
        &mut self,
        machine: &Machine,
        origin: Origin,
        edge: &Edge,
    ) -> Result<bool, OutOfMemory>
        requires { edge.now.flowing < length self.old.draft.store }
        ensures takes { IfOk result
            (λ changed. Makes room (step_taken (table_view machine.now) origin.state
            (edge_view self.old.draft.store edge.now))
            (draft_view self.old.draft) changed (draft_view self.new.draft)) }
        ensures waits { StaysWaiting self.old.waiting self.new.waiting }
        ensures others { IfOk result (λ changed. OthersStayCalm origin.state self.old self.new) }
        ensures walked { IfOk result
            (λ changed. StepsOn (table_view machine.now) origin
            (edge_view self.old.draft.store edge.now) self.old self.new) }
        ensures keeps { Keeps self.old.draft.store self.new.draft.store }
    {
        match target_of(machine, origin.state, edge.destination) {
            Some(target) => {
                self.predecessors.add(target, origin, edge.flowing)?;
                self.take(target, edge.flowing)
            }
            None => Ok(false),
        }
    }

    /// Takes in what flows into one of the shapes, and says whether this changed it. Where it did, the state that looks
    /// at the shape waits, and so do the states whose edges lead to it and would change it again.
    pub fn take(&mut self, target: Target, flowing: usize) -> Result<bool, OutOfMemory>
        requires { flowing < length self.old.draft.store }
        ensures takes { IfOk result
            (λ changed. Makes room (taken_at (Some (target_view target))
            (shape_at self.old.draft.store flowing))
            (draft_view self.old.draft) changed (draft_view self.new.draft)) }
        ensures waits { StaysWaiting self.old.waiting self.new.waiting }
        ensures woken { IfOk result
            (λ changed. changed ≡ true
            → HaveWoken (length self.old.draft.store) self.new.draft self.new.predecessors target
            self.new.waiting.waits.items) }
        ensures calm { IfOk result
            (λ changed. (table : Table) (declared : Declared) (row : Row)
            → row.number < length self.new.waiting.waits.items
            → IsCalm table declared row self.old → IsCalm table declared row self.new) }
        ensures predecessors { self.new.predecessors ≡ self.old.predecessors }
        ensures keeps { Keeps self.old.draft.store self.new.draft.store }
    {
        let changed = self.draft.take(target, flowing)?;
        if changed {
            self.wake_reader(target)?;
            self.wake_predecessors(target)?;
        }
        Ok(changed)
    }

    /// The state that looks at that shape when it is walked waits: none looks at its own output or at the machine's.
    fn wake_reader(&mut self, target: Target) -> Result<(), OutOfMemory>
        ensures waits { StaysWaiting self.old.waiting self.new.waiting }
        ensures reader { OnOk result
            (ReaderWaits (target_view target) self.new.waiting.waits.items) }
        ensures draft { self.new.draft ≡ self.old.draft }
        ensures predecessors { self.new.predecessors ≡ self.old.predecessors }
    {
        match target {
            Target::MachineOutput | Target::Output(_) => Ok(()),
            Target::Input(state) | Target::End { state, .. } => self.waiting.wake(state),
        }
    }

    /// The states wait that would change that shape by what flowed out of them when they were walked last: a join may
    /// undo what another one did.
    fn wake_predecessors(&mut self, target: Target) -> Result<(), OutOfMemory>
        ensures waits { StaysWaiting self.old.waiting self.new.waiting }
        ensures again { OnOk result
            (PredecessorsWait self.old.draft self.old.predecessors target
            self.new.waiting.waits.items) }
        ensures draft { draft_view self.new.draft ≡ draft_view self.old.draft }
        ensures predecessors { self.new.predecessors ≡ self.old.predecessors }
        ensures keeps { Keeps self.old.draft.store self.new.draft.store }
    {
        let inflows = self.predecessors.inflows(target)?;
        for inflow in &inflows {
            if self.draft.would_change(target, inflow.flowing)? {
                self.waiting.wake(inflow.state)?;
            }
        }
        Ok(())
    }
}
