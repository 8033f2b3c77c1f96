//! Plans: what a step is to do, made before anything is changed.

ghost use Rattle.std.specs.Prelude.{◌≡◌, ◌∷◌, [], IfOk, IsOkAnd, map, string_bytes};
ghost use Rattle.asl_states.specs.Machine.{target_name};
ghost use Rattle.asl_model.specs.Run as model;
ghost use Rattle.asl_run.specs.Acting.{Plans, told_here};
ghost use Rattle.asl_run.specs.Entries.{ended_view, entry_view, outcome_view};
ghost use Rattle.asl_processing.specs.Faults.{fault_view};
ghost use Rattle.asl_tree.specs.View.{view};

use crate::changing::Change;
use crate::entries::{Entry, Outcome, Place};
use asl_machine_table::Machine;
use asl_processing::{Datum, Fault, Visit};
use asl_states::{State, Target};
use asl_tree::OutOfMemory;
use std::alloc::Global;

/// What a step is to do: the entries that it makes, and the change at its place.
#[derive(Drop)]
pub(crate) struct Plan<'m> {
    pub(crate) entries: Vec<Entry<'m>>,
    pub(crate) change: Change,
}

/// An execution of a state where something happens to it, by its state's name.
#[derive(Drop)]
pub(crate) struct Here<'h, 'm> {
    pub(crate) alloc: Global,
    pub(crate) machine: &'m Machine,
    /// Its place, from the machine's own on.
    pub(crate) at: &'h [usize],
    pub(crate) name: &'m str,
    pub(crate) state: &'m State,
    pub(crate) visit: &'h Visit,
}

impl<'m> Plan<'m> {
    /// A change without an entry.
    pub(crate) fn new(alloc: Global, change: Change) -> Plan<'m>
        ensures none { result.entries.items ≡ [] }
        ensures change { result.change ≡ change }
    {
        Plan {
            entries: Vec::new(alloc),
            change,
        }
    }

    /// The plan with one more entry in front, where that could be made.
    pub(crate) fn after(
        self,
        entry: Result<Entry<'m>, OutOfMemory>,
    ) -> Result<Plan<'m>, OutOfMemory>
        ensures first { let others = self.entry.entries.items in
            IfOk result (λ plan. IsOkAnd entry.entry (λ e. plan.entries.items ≡ e ∷ others)) }
        ensures change { IfOk result (λ plan. plan.change ≡ self.entry.change) }
    {
        let Plan { entries, change } = self;
        let entries = with_first(entry, entries)?;
        Ok(Plan { entries, change })
    }
}

/// The entries with one more in front, where that could be made.
fn with_first<'m>(
    entry: Result<Entry<'m>, OutOfMemory>,
    others: Vec<Entry<'m>>,
) -> Result<Vec<Entry<'m>>, OutOfMemory>
    ensures { IfOk result
        (λ entries. IsOkAnd entry.entry (λ e. entries.items ≡ e ∷ others.entry.items)) }
{
    let first = entry?;
    let mut entries = others;
    entries.insert(0, first)?;
    Ok(entries)
}

impl<'m> Here<'_, 'm> {
    /// The place.
    fn place(&self) -> Result<Place, OutOfMemory>
        ensures { IfOk result (λ place. place.items ≡ self.now.at.now) }
    {
        Ok(Vec::from_slice(self.alloc, self.at)?)
    }

    /// A text of its own.
    fn text(&self, text: &str) -> Result<String, OutOfMemory>
        ensures { IfOk result (λ s. string_bytes s ≡ text.now) }
    {
        Ok(String::from_str(self.alloc, text)?)
    }

    /// The entry that the state is entered with its raw input.
    pub(crate) fn entered(&self) -> Result<Entry<'m>, OutOfMemory>
        ensures { IfOk result (λ entry. entry_view entry ≡ told_here self.now
            (model.Entered self.now.name.now (view self.now.visit.now.raw.value))) }
    {
        Ok(Entry::Enter {
            at: self.place()?,
            state: self.name,
            input: self.visit.raw.clone()?,
        })
    }

    /// The entry that its task is asked with a payload.
    pub(crate) fn asked(&self, payload: &Datum) -> Result<Entry<'m>, OutOfMemory>
        ensures { IfOk result (λ entry. entry_view entry
            ≡ told_here self.now (model.Asked self.now.name.now (view payload.now.value))) }
    {
        Ok(Entry::Task {
            at: self.place()?,
            state: self.name,
            payload: payload.clone()?,
        })
    }

    /// The entry that it is left with an output.
    pub(crate) fn left(&self, output: &Datum) -> Result<Entry<'m>, OutOfMemory>
        ensures { IfOk result (λ entry. entry_view entry
            ≡ told_here self.now (model.Left self.now.name.now (view output.now.value))) }
    {
        Ok(Entry::Leave {
            at: self.place()?,
            state: self.name,
            output: output.clone()?,
        })
    }

    /// The entry that it raises a data-flow fault.
    pub(crate) fn raised(&self, fault: Fault) -> Result<Entry<'m>, OutOfMemory>
        ensures { IfOk result (λ entry. entry_view entry
            ≡ told_here self.now (model.Raised self.now.name.now (fault_view fault))) }
    {
        Ok(Entry::Raise {
            at: self.place()?,
            state: self.name,
            fault,
        })
    }

    /// The entry that its task has failed.
    pub(crate) fn task_failed(&self, error: &str, cause: &str) -> Result<Entry<'m>, OutOfMemory>
        ensures { IfOk result (λ entry. entry_view entry
            ≡ told_here self.now (model.TaskFailed self.now.name.now error.now cause.now)) }
    {
        Ok(Entry::TaskFailed {
            at: self.place()?,
            state: self.name,
            error: self.text(error)?,
            cause: self.text(cause)?,
        })
    }

    /// The entry that its child of that number has failed.
    pub(crate) fn branch_failed(
        &self,
        child: usize,
        error: &str,
        cause: &str,
    ) -> Result<Entry<'m>, OutOfMemory>
        ensures { IfOk result (λ entry. entry_view entry ≡ told_here self.now
            (model.BranchFailed self.now.name.now child error.now cause.now)) }
    {
        Ok(Entry::BranchFailed {
            at: self.place()?,
            state: self.name,
            child,
            error: self.text(error)?,
            cause: self.text(cause)?,
        })
    }

    /// The entry that its retrier of that number retries.
    pub(crate) fn retried(&self, retrier: usize) -> Result<Entry<'m>, OutOfMemory>
        ensures { IfOk result (λ entry.
            entry_view entry ≡ told_here self.now (model.Retried self.now.name.now retrier)) }
    {
        Ok(Entry::Retried {
            at: self.place()?,
            state: self.name,
            retrier,
        })
    }

    /// The entry that its catcher of that number hands on to that state.
    pub(crate) fn caught(&self, catcher: usize, next: &'m Target) -> Result<Entry<'m>, OutOfMemory>
        ensures { IfOk result (λ entry. entry_view entry ≡ told_here self.now
            (model.Caught self.now.name.now catcher (target_name next.now))) }
    {
        Ok(Entry::Caught {
            at: self.place()?,
            state: self.name,
            catcher,
            next: &next.name,
        })
    }

    /// The entries that it is left with an output and that its scope ends with that.
    pub(crate) fn left_and_ended(&self, output: &Datum) -> Result<Vec<Entry<'m>>, OutOfMemory>
        ensures { IfOk result (λ entries. map entry_view entries.items
            ≡ map (told_here self.now) (model.Left self.now.name.now (view output.now.value)
            ∷ model.Ended (model.Output (view output.now.value)) ∷ [])) }
    {
        let entries = with_first(self.ended_with(output), Vec::new(self.alloc))?;
        with_first(self.left(output), entries)
    }

    /// The entry that its scope ends with an output.
    fn ended_with(&self, output: &Datum) -> Result<Entry<'m>, OutOfMemory>
        ensures { IfOk result (λ entry. entry_view entry
            ≡ told_here self.now (model.Ended (model.Output (view output.now.value)))) }
    {
        Ok(Entry::Ended {
            at: self.place()?,
            outcome: Outcome::Output(output.clone()?),
        })
    }

    /// The entry that its scope ends with an error and a cause.
    fn ended_failing(&self, error: &str, cause: &str) -> Result<Entry<'m>, OutOfMemory>
        ensures { IfOk result (λ entry. entry_view entry
            ≡ told_here self.now (model.Ended (model.FailedWith error.now cause.now))) }
    {
        Ok(Entry::Ended {
            at: self.place()?,
            outcome: self.failure(error, cause)?,
        })
    }

    /// An outcome that tells an error and its cause.
    fn failure(&self, error: &str, cause: &str) -> Result<Outcome, OutOfMemory>
        ensures outcome { IfOk result (λ o. outcome_view o ≡ model.FailedWith error.now cause.now) }
        ensures ended { IfOk result (λ o. ended_view o ≡ model.Failed error.now cause.now) }
    {
        Ok(Outcome::Failed {
            error: self.text(error)?,
            cause: self.text(cause)?,
        })
    }

    /// The scope ends with an error and a cause.
    #[tactic(auto, using(crate::proofs::Planned::ended_so))]
    pub(crate) fn ends_failing(&self, error: &str, cause: &str) -> Result<Plan<'m>, OutOfMemory>
        ensures { IfOk result (λ plan. Plans self.now plan
            (model.ends_failing error.now cause.now)) }
    {
        let ended = self.failure(error, cause)?;
        let told = self.ended_failing(error, cause);
        Plan::new(self.alloc, Change::End(ended)).after(told)
    }
}
