//! The line of each entry.

ghost use Rattle.std.specs.Prelude.{◌≡◌, ◌++◌, IfOk, map};
ghost use Rattle.asl_model.specs.Run as model;
ghost use Rattle.asl_model.specs.TracePrinted.{entry_line, trace_text};
ghost use Rattle.asl_run.specs.Entries.{entry_view, outcome_view};
ghost use Rattle.asl_run.specs.Faults.{fault_view};
ghost use Rattle.asl_trace.specs.Lines.{lines_text};
ghost use Rattle.asl_trace.specs.Shown.{data_line};
ghost use Rattle.asl_tree.specs.View.{view};

use crate::lines::Lines;
use crate::shown::Shown;
use asl_run::{Datum, Entry, Fault, Outcome};
use asl_tree::OutOfMemory;

impl<'m> Lines<'m> {
    /// Adds the lines of the entries, in order. A refusal, for want of memory, may leave some of them; no clause says what then
    /// stands here.
    pub fn add(&mut self, entries: &[Entry<'m>]) -> Result<(), OutOfMemory>
        ensures { IfOk result (λ _. lines_text self.new
            ≡ lines_text self.old ++ trace_text (map entry_view entries.now)) }
    {
        for entry in entries {
            self.add_entry(entry)?;
        }
        Ok(())
    }

    /// Adds the line of the entry.
    fn add_entry(&mut self, entry: &Entry<'m>) -> Result<(), OutOfMemory>
        ensures { IfOk result (λ _. self.new.bytes.items
            ≡ self.old.bytes.items ++ entry_line (entry_view entry.now)) }
    {
        match entry {
            Entry::Enter { at, state, input } => self.add_enter(at, input, state),
            Entry::Task { at, state, payload } => self.add_task(at, payload, state),
            Entry::Leave { at, state, output } => self.add_leave(at, output, state),
            Entry::Raise { at, state, fault } => self.add_raise(at, *fault, state),
            Entry::TaskFailed {
                at,
                state,
                error,
                cause,
            } => self.add_failure(at, cause, error, state),
            Entry::BranchFailed {
                at,
                state,
                child,
                error,
                cause,
            } => self.add_child(at, cause, *child, error, state),
            Entry::Retried { at, state, retrier } => self.add_retry(at, *retrier, state),
            Entry::Caught {
                at,
                state,
                catcher,
                next,
            } => self.add_catch(at, *catcher, next, state),
            Entry::Ended { at, outcome } => self.add_end(at, outcome),
        }
    }

    /// Adds the line of what enters a state.
    fn add_enter(&mut self, at: &[usize], input: &Datum, state: &'m str) -> Result<(), OutOfMemory>
        ensures { IfOk result (λ _. self.new.bytes.items ≡ self.old.bytes.items
            ++ entry_line (at.now, model.Entered state.now (view input.now.value))) }
    {
        self.add_data(at, ",\"entry\":\"Enter\",\"input\":", input, state)
    }

    /// Adds the line of what a task is asked with.
    fn add_task(&mut self, at: &[usize], payload: &Datum, state: &'m str) -> Result<(), OutOfMemory>
        ensures { IfOk result (λ _. self.new.bytes.items ≡ self.old.bytes.items
            ++ entry_line (at.now, model.Asked state.now (view payload.now.value))) }
    {
        self.add_data(at, ",\"entry\":\"Task\",\"payload\":", payload, state)
    }

    /// Adds the line of what leaves a state.
    fn add_leave(&mut self, at: &[usize], output: &Datum, state: &'m str) -> Result<(), OutOfMemory>
        ensures { IfOk result (λ _. self.new.bytes.items ≡ self.old.bytes.items
            ++ entry_line (at.now, model.Left state.now (view output.now.value))) }
    {
        self.add_data(at, ",\"entry\":\"Leave\",\"output\":", output, state)
    }

    /// Adds the line that shows a datum of a state, with what stands between it and the place.
    fn add_data<'e>(
        &mut self,
        at: &'e [usize],
        front: &'e str,
        datum: &'e Datum,
        state: &'m str,
    ) -> Result<(), OutOfMemory>
        ensures { IfOk result (λ _. self.new.bytes.items ≡ self.old.bytes.items
            ++ data_line at.now front.now (view datum.now.value) state.now) }
    {
        self.add_line(&[
            ("{\"at\":", Shown::Place(at)),
            (front, Shown::Datum(datum)),
            (",\"state\":", Shown::Name(state)),
        ])
    }

    /// Adds the line of a data-flow fault.
    fn add_raise(&mut self, at: &[usize], fault: Fault, state: &'m str) -> Result<(), OutOfMemory>
        ensures { IfOk result (λ _. self.new.bytes.items ≡ self.old.bytes.items
            ++ entry_line (at.now, model.Raised state.now (fault_view fault))) }
    {
        self.add_line(&[
            ("{\"at\":", Shown::Place(at)),
            (
                ",\"entry\":\"Raise\",\"error\":",
                Shown::Text(fault.error.name()),
            ),
            (",\"field\":", Shown::Text(fault.field)),
            (",\"state\":", Shown::Name(state)),
        ])
    }

    /// Adds the line of a task's failure.
    fn add_failure<'e>(
        &mut self,
        at: &'e [usize],
        cause: &'e str,
        error: &'e str,
        state: &'m str,
    ) -> Result<(), OutOfMemory>
        ensures { IfOk result (λ _. self.new.bytes.items ≡ self.old.bytes.items
            ++ entry_line (at.now, model.TaskFailed state.now error.now cause.now)) }
    {
        self.add_line(&[
            ("{\"at\":", Shown::Place(at)),
            (",\"cause\":", Shown::Text(cause)),
            (",\"entry\":\"TaskFailed\",\"error\":", Shown::Text(error)),
            (",\"state\":", Shown::Name(state)),
        ])
    }

    /// Adds the line of a child's failure.
    fn add_child<'e>(
        &mut self,
        at: &'e [usize],
        cause: &'e str,
        child: usize,
        error: &'e str,
        state: &'m str,
    ) -> Result<(), OutOfMemory>
        ensures { IfOk result (λ _. self.new.bytes.items ≡ self.old.bytes.items
            ++ entry_line (at.now, model.BranchFailed state.now child error.now cause.now)) }
    {
        self.add_line(&[
            ("{\"at\":", Shown::Place(at)),
            (",\"cause\":", Shown::Text(cause)),
            (",\"child\":", Shown::Number(child)),
            (",\"entry\":\"BranchFailed\",\"error\":", Shown::Text(error)),
            (",\"state\":", Shown::Name(state)),
        ])
    }

    /// Adds the line of a retry.
    fn add_retry<'e>(
        &mut self,
        at: &'e [usize],
        retrier: usize,
        state: &'m str,
    ) -> Result<(), OutOfMemory>
        ensures { IfOk result (λ _. self.new.bytes.items ≡ self.old.bytes.items
            ++ entry_line (at.now, model.Retried state.now retrier)) }
    {
        self.add_line(&[
            ("{\"at\":", Shown::Place(at)),
            (
                ",\"entry\":\"Retried\",\"retrier\":",
                Shown::Number(retrier),
            ),
            (",\"state\":", Shown::Name(state)),
        ])
    }

    /// Adds the line of a catcher that hands on.
    fn add_catch<'e>(
        &mut self,
        at: &'e [usize],
        catcher: usize,
        next: &'e str,
        state: &'m str,
    ) -> Result<(), OutOfMemory>
        ensures { IfOk result (λ _. self.new.bytes.items ≡ self.old.bytes.items
            ++ entry_line (at.now, model.Caught state.now catcher next.now)) }
    {
        self.add_line(&[
            ("{\"at\":", Shown::Place(at)),
            (",\"catcher\":", Shown::Number(catcher)),
            (",\"entry\":\"Caught\",\"next\":", Shown::Text(next)),
            (",\"state\":", Shown::Name(state)),
        ])
    }

    /// Adds the line of a scope's end.
    fn add_end(&mut self, at: &[usize], outcome: &Outcome) -> Result<(), OutOfMemory>
        ensures { IfOk result (λ _. self.new.bytes.items ≡ self.old.bytes.items
            ++ entry_line (at.now, model.Ended (outcome_view outcome.now))) }
    {
        match outcome {
            Outcome::Output(output) => self.add_output(at, output),
            Outcome::Failed { error, cause } => self.add_end_failing(at, cause, error),
        }
    }

    /// Adds the line of a scope that ends with an output.
    fn add_output(&mut self, at: &[usize], output: &Datum) -> Result<(), OutOfMemory>
        ensures { IfOk result (λ _. self.new.bytes.items ≡ self.old.bytes.items
            ++ entry_line (at.now, model.Ended (model.Output (view output.now.value)))) }
    {
        self.add_line(&[
            ("{\"at\":", Shown::Place(at)),
            (",\"entry\":\"Ended\",\"output\":", Shown::Datum(output)),
        ])
    }

    /// Adds the line of a scope that ends with an error and its cause.
    fn add_end_failing<'e>(
        &mut self,
        at: &'e [usize],
        cause: &'e str,
        error: &'e str,
    ) -> Result<(), OutOfMemory>
        ensures { IfOk result (λ _. self.new.bytes.items ≡ self.old.bytes.items
            ++ entry_line (at.now, model.Ended (model.FailedWith error.now cause.now))) }
    {
        self.add_line(&[
            ("{\"at\":", Shown::Place(at)),
            (",\"cause\":", Shown::Text(cause)),
            (",\"entry\":\"Ended\",\"error\":", Shown::Text(error)),
        ])
    }
}
