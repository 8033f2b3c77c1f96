//! What is known of one state, in lines.

use crate::flows::Explainer;
use crate::heads::{Told, told_in_short};
use asl_check::Located;
use asl_numbered::Shapes;
use asl_phrases::{counted, noted, push_all};
use asl_records::StateNumbers;
use asl_states::{Kind, State};
use asl_tree::OutOfMemory;
use asl_ways::Arrival;
use std::alloc::Global;

/// How many arrivals at a state are told.
const MOST_ARRIVALS: usize = 20;

/// What is told in place of origins where a rule is broken in front.
const UNKNOWN: &str =
    "where a rule is broken in front: what comes here isn't known until that is mended";

/// What is told behind origins where a rule is broken in front.
const MORE: &str = "and perhaps more, from where a rule is broken in front";

impl Explainer<'_> {
    /// What comes to the state of that number, its shapes, and its findings; `is_behind` says whether data may come to it behind
    /// a rule that is broken, of which nothing is known here.
    pub(crate) fn about_state(
        &self,
        shapes: &mut Shapes,
        findings: &[Located],
        number: usize,
        is_behind: bool,
    ) -> Result<String, OutOfMemory> {
        let (Some(name), Some(state)) = (self.machine.name(number), self.machine.state(number))
        else {
            return self.state_text(number);
        };
        let mut text = self.head_line(number, state)?;
        if is_behind && !self.has_data_at(shapes, number) {
            push_row(&mut text, "comes from", UNKNOWN)?;
        } else {
            self.push_arrivals(shapes, &mut text, number, is_behind)?;
            self.push_known(shapes, &mut text, number, name)?;
        }
        self.push_findings(&mut text, findings, name)?;
        Ok(text)
    }

    /// The state's name, its type, and where it stands.
    fn head_line(&self, number: usize, state: &State) -> Result<String, OutOfMemory> {
        let name = self.state_text(number)?;
        let kind = state.kind.name();
        let place = self.place_of(number)?;
        Ok(format!(in self.alloc; "{name}, a {kind}{place}\n")?)
    }

    /// The branch or the Map in which the state stands, if it stands in one.
    fn place_of(&self, number: usize) -> Result<String, OutOfMemory> {
        match self.machine.scope_of(number).and_then(|scope| scope.owner) {
            Some((owner, child)) => self.place_within(owner, child),
            None => Ok(String::new(self.alloc)),
        }
    }

    /// The branch of that number of a Parallel, counted from 0, or the Map.
    fn place_within(&self, owner: usize, child: usize) -> Result<String, OutOfMemory> {
        let name = self.state_text(owner)?;
        match self.machine.state(owner) {
            Some(state) if matches!(state.kind, Kind::Parallel { .. }) => {
                let branch = counted(self.alloc, child)?;
                Ok(format!(in self.alloc; ", in branch {branch} of {name}")?)
            }
            _ => Ok(format!(in self.alloc; ", for each item of {name}")?),
        }
    }

    /// Puts down the shapes of the state of that name.
    fn push_known(
        &self,
        shapes: &mut Shapes,
        text: &mut String,
        number: usize,
        name: &str,
    ) -> Result<(), OutOfMemory> {
        match self.states.get(name) {
            Some(entry) => self.push_shapes(shapes, text, number, entry),
            None => Ok(()),
        }
    }

    /// Whether data is known to come to the state of that number.
    fn has_data_at(&self, shapes: &Shapes, number: usize) -> bool {
        self.flows.arrivals_at(number).iter().any(|place| {
            self.flows
                .arrivals
                .get(*place)
                .is_some_and(|arrival| shapes.inhabited(arrival.shape) != Some(false))
        })
    }

    /// Puts down from where data comes to the state, each with its shape, and that more may come where a rule is broken in
    /// front.
    fn push_arrivals(
        &self,
        shapes: &Shapes,
        text: &mut String,
        number: usize,
        is_behind: bool,
    ) -> Result<(), OutOfMemory> {
        let arrivals = self.flows.arrivals_at(number);
        if arrivals.is_empty() {
            return push_row(text, "comes from", "nowhere");
        }
        for (place, arrival) in arrivals.iter().take(MOST_ARRIVALS).enumerate() {
            if let Some(arrival) = self.flows.arrivals.get(*arrival) {
                let label = if place == 0 { "comes from" } else { "" };
                self.push_arrival(shapes, text, label, arrival)?;
            }
        }
        self.push_untold(text, arrivals.len().saturating_sub(MOST_ARRIVALS))?;
        if is_behind {
            return push_row(text, "", MORE);
        }
        Ok(())
    }

    /// Puts down an arrival with its shape.
    fn push_arrival(
        &self,
        shapes: &Shapes,
        text: &mut String,
        label: &str,
        arrival: &Arrival,
    ) -> Result<(), OutOfMemory> {
        let origin = self.arrival_text(arrival)?;
        let is = noted(self.alloc, shapes, arrival.shape)?;
        push_row(text, label, &format!(in self.alloc; "{origin}  {is}")?)
    }

    /// Puts down how many arrivals aren't told, if there are some.
    fn push_untold(&self, text: &mut String, others: usize) -> Result<(), OutOfMemory> {
        if others == 0 {
            return Ok(());
        }
        push_row(text, "", &format!(in self.alloc; "and {others} others")?)
    }

    /// Puts down the state's shapes.
    fn push_shapes(
        &self,
        shapes: &mut Shapes,
        text: &mut String,
        number: usize,
        entry: &StateNumbers,
    ) -> Result<(), OutOfMemory> {
        self.push_shape(shapes, text, "input", entry.input)?;
        self.push_effective_row(shapes, text, number, entry.input)?;
        self.push_task(shapes, text, number)?;
        self.push_ends(shapes, text, entry)?;
        match self.machine.state(number) {
            Some(state) if has_output(state) => {
                self.push_shape(shapes, text, "output", entry.output)
            }
            _ => Ok(()),
        }
    }

    /// Puts down a shape.
    fn push_shape(
        &self,
        shapes: &Shapes,
        text: &mut String,
        label: &str,
        number: usize,
    ) -> Result<(), OutOfMemory> {
        push_row(text, label, &noted(self.alloc, shapes, number)?)
    }

    /// Puts down the effective input, which is a Task's payload, unless it is the input itself.
    fn push_effective_row(
        &self,
        shapes: &mut Shapes,
        text: &mut String,
        number: usize,
        input: usize,
    ) -> Result<(), OutOfMemory> {
        let label = match self.machine.state(number) {
            Some(state) if state.kind.is_task() => "payload",
            _ => "effective",
        };
        match self.effective_of(shapes, number, input)? {
            Some(effective) if effective != input => {
                self.push_shape(shapes, text, label, effective)
            }
            Some(_) | None => Ok(()),
        }
    }

    /// Puts down what a Task takes and gives.
    fn push_task(
        &self,
        shapes: &mut Shapes,
        text: &mut String,
        number: usize,
    ) -> Result<(), OutOfMemory> {
        match (self.machine.name(number), self.machine.state(number)) {
            (Some(name), Some(state)) if state.kind.is_task() => {
                self.push_declared(shapes, text, name)
            }
            _ => Ok(()),
        }
    }

    /// Puts down what the task of that name is declared to take and to give.
    fn push_declared(
        &self,
        shapes: &mut Shapes,
        text: &mut String,
        name: &str,
    ) -> Result<(), OutOfMemory> {
        if self.declared.task(name).is_none() {
            return push_row(text, "takes", "not declared");
        }
        let takes = self.taken_by(shapes, name)?;
        let gives = self.given_by(shapes, name)?;
        self.push_shape(shapes, text, "takes", takes)?;
        self.push_shape(shapes, text, "gives", gives)
    }

    /// Puts down what the branches of a Parallel and each item of a Map end with.
    fn push_ends(
        &self,
        shapes: &Shapes,
        text: &mut String,
        entry: &StateNumbers,
    ) -> Result<(), OutOfMemory> {
        for (branch, end) in entry.branches.iter().enumerate() {
            let branch = counted(self.alloc, branch)?;
            let label = format!(in self.alloc; "branch {branch}")?;
            self.push_shape(shapes, text, &label, *end)?;
        }
        match entry.item {
            Some(item) => self.push_shape(shapes, text, "each item", item),
            None => Ok(()),
        }
    }

    /// Puts down the findings of the state of that name.
    fn push_findings(
        &self,
        text: &mut String,
        findings: &[Located],
        name: &str,
    ) -> Result<(), OutOfMemory> {
        let mut told = Told::new(self.alloc);
        for located in findings {
            if located.finding.state.as_str() == name && !told.has(self.alloc, located)? {
                push_row(text, "finding", &told_in_short(self.alloc, located)?)?;
            }
        }
        Ok(())
    }
}

/// Whether a state of that type has an output.
fn has_output(state: &State) -> bool {
    !matches!(state.kind, Kind::Fail { .. })
}

/// Puts a label and what it tells in two columns behind the text.
fn push_row(text: &mut String, label: &str, told: &str) -> Result<(), OutOfMemory> {
    push_all(text, &["  ", label])?;
    for _ in label.len()..LABEL_COLUMN {
        text.push_str(" ")?;
    }
    push_all(text, &[told, "\n"])
}

/// How wide the column of labels is.
const LABEL_COLUMN: usize = 12;
