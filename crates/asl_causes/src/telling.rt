//! The explanation of one finding, in lines.

use crate::causes::Cause;
use crate::flows::Explainer;
use crate::heads::head_of;
use crate::there::told_of_named;
use crate::walking::Walks;
use asl_check::{FindingFault, Located};
use asl_diagnostics::rule_of_finding;
use asl_numbered::Shapes;
use asl_path::RefPath;
use asl_phrases::{example_text, noted, push_all, push_line};
use asl_state_edges::{Broken, Step};
use asl_tree::{OutOfMemory, Tree};
use asl_ways::Arrival;
use std::alloc::Global;

/// How many other origins are told.
const MOST_OTHERS: usize = 2;

/// How many arrivals are looked at for them.
const MOST_WALKS: usize = 100;

impl<'m> Explainer<'m> {
    /// Puts down what is wrong, what is known there, by which way it comes so, an example, and what usually helps.
    pub(crate) fn push_finding(
        &self,
        shapes: &mut Shapes,
        walks: &mut Walks<'m>,
        text: &mut String,
        located: &Located,
    ) -> Result<(), OutOfMemory> {
        push_head(self.alloc, text, located)?;
        let cause = self.cause_of(shapes, walks, located)?;
        let others = match &cause {
            Some(cause) => self.push_cause(shapes, walks, text, located, cause)?,
            None => 0,
        };
        let help = self.help_for(shapes, located, cause.as_ref(), others > 0)?;
        push_line(text, "What helps: ", &help)
    }

    /// Puts down what is known of the data with which the rule is broken, and where it comes from. Answers how many origins
    /// are told from which data comes with which it isn't broken.
    fn push_cause(
        &self,
        shapes: &mut Shapes,
        walks: &mut Walks<'m>,
        text: &mut String,
        located: &Located,
        cause: &Cause<'m>,
    ) -> Result<usize, OutOfMemory> {
        self.push_there(shapes, text, cause)?;
        let others = self.push_origins(shapes, walks, text, located, cause)?;
        self.push_shown(shapes, text, located, cause)?;
        self.push_idle_test(shapes, &mut walks.tests, text, cause)?;
        Ok(others)
    }

    /// Puts down an example of the data with which the rule is broken, if there is one.
    fn push_shown(
        &self,
        shapes: &mut Shapes,
        text: &mut String,
        located: &Located,
        cause: &Cause<'m>,
    ) -> Result<(), OutOfMemory> {
        if let FindingFault::NoDefault = located.finding.fault {
            let tree = self.unchosen(shapes, cause)?;
            push_example(self.alloc, text, "For example, no rule is true of: ", &tree)
        } else {
            let tree = self.example_of(shapes, cause)?;
            push_example(self.alloc, text, "For example: ", &tree)
        }
    }

    /// Puts down where the data comes from with which the rule is broken, and other origins, where there are some. Answers how
    /// many of these.
    fn push_origins(
        &self,
        shapes: &mut Shapes,
        walks: &mut Walks<'m>,
        text: &mut String,
        located: &Located,
        cause: &Cause<'m>,
    ) -> Result<usize, OutOfMemory> {
        if let Some(origin) = self.own_origin(shapes, cause, &located.finding.field)? {
            push_line(text, "It comes so from: ", origin)?;
            return Ok(0);
        }
        match self.built_origin(shapes, cause, &located.finding.field)? {
            Some(origin) => {
                push_line(text, "It comes so from: ", &origin)?;
                self.push_input_way(text, cause)?;
            }
            None => push_line(text, "It comes so from: ", &self.way_text(cause.way)?)?,
        }
        self.push_others(shapes, walks, text, located, cause)
    }

    /// Puts down by which way the input comes, where that isn't the machine's.
    fn push_input_way(&self, text: &mut String, cause: &Cause<'m>) -> Result<(), OutOfMemory> {
        if self.is_at_start(cause) {
            return Ok(());
        }
        let way = self.way_text(cause.way)?;
        push_line(text, "Such an input comes from: ", &way)
    }

    /// Puts down the first origins from which data comes with which the rule isn't broken, and answers how many.
    fn push_others(
        &self,
        shapes: &mut Shapes,
        walks: &mut Walks<'m>,
        text: &mut String,
        located: &Located,
        cause: &Cause<'m>,
    ) -> Result<usize, OutOfMemory> {
        let mut told: usize = 0;
        for number in self.flows.arrivals_at(cause.state).iter().take(MOST_WALKS) {
            if told == MOST_OTHERS {
                break;
            }
            if let Some(arrival) = self.flows.arrivals.get(*number) {
                if self.is_other(shapes, walks, located, arrival)? {
                    self.push_other(shapes, text, arrival, cause)?;
                    told = told.saturating_add(1);
                }
            }
        }
        Ok(told)
    }

    /// Whether data comes there with which the rule isn't broken.
    fn is_other(
        &self,
        shapes: &mut Shapes,
        walks: &mut Walks<'m>,
        located: &Located,
        arrival: &Arrival,
    ) -> Result<bool, OutOfMemory> {
        if shapes.inhabited(arrival.shape) != Some(true) {
            return Ok(false);
        }
        let step = self.broken_step(shapes, walks, located, arrival.state, arrival.shape)?;
        Ok(step.is_none())
    }

    /// Puts down an origin from which data comes with which the rule isn't broken.
    fn push_other(
        &self,
        shapes: &mut Shapes,
        text: &mut String,
        arrival: &Arrival,
        cause: &Cause<'m>,
    ) -> Result<(), OutOfMemory> {
        let origin = self.arrival_text(arrival)?;
        let told = self.told_of_other(shapes, arrival, &cause.step)?;
        let line = format!(in self.alloc; "From {origin} {told}")?;
        push_line(text, "", &line)
    }

    /// What there is of data with which the rule isn't broken: what the path names, where that is easily told, or the input.
    fn told_of_other(
        &self,
        shapes: &mut Shapes,
        arrival: &Arrival,
        step: &Step<'m>,
    ) -> Result<String, OutOfMemory> {
        match step {
            Step::Breaks(
                Broken {
                    field,
                    path: Some(path),
                    ..
                },
            ) => self.told_of_path(shapes, arrival, field, path.path),
            Step::Breaks(_) => told_of_input(self.alloc, shapes, arrival, "it doesn't arise"),
            Step::Flows(_) => told_of_input(self.alloc, shapes, arrival, "it fits"),
        }
    }

    /// What a path of that field names in what comes to the state, where that is easily told, or the input.
    fn told_of_path(
        &self,
        shapes: &mut Shapes,
        arrival: &Arrival,
        field: &str,
        path: &RefPath,
    ) -> Result<String, OutOfMemory> {
        match self.named_at_arrival(shapes, arrival, field, path)? {
            Some(named) => {
                let value = told_of_named(self.alloc, shapes, path, named)?;
                Ok(format!(in self.alloc; "it is there: {value}")?)
            }
            None => told_of_input(self.alloc, shapes, arrival, "it doesn't arise"),
        }
    }

    /// The number of the shape of what a path of that field names in what comes to the state; none where that isn't looked up
    /// in its input.
    fn named_at_arrival(
        &self,
        shapes: &mut Shapes,
        arrival: &Arrival,
        field: &str,
        path: &RefPath,
    ) -> Result<Option<usize>, OutOfMemory> {
        match field {
            "InputPath" => self.named_in(shapes, arrival.shape, path),
            "Parameters" => match self.taken_of(shapes, arrival.state, arrival.shape)? {
                Some(taken) => self.named_in(shapes, taken, path),
                None => Ok(None),
            },
            "Choices" | "ItemsPath" | "SecondsPath" | "TimestampPath" => {
                self.named_in_effective(shapes, arrival.state, arrival.shape, path)
            }
            _ => Ok(None),
        }
    }
}

/// That the rule isn't broken with what arrives, and its shape.
fn told_of_input(
    alloc: Global,
    shapes: &Shapes,
    arrival: &Arrival,
    how: &str,
) -> Result<String, OutOfMemory> {
    let is = noted(alloc, shapes, arrival.shape)?;
    Ok(format!(in alloc; "{how}: the input is {is}")?)
}

/// Puts down a finding of which nothing else is known, with what generally helps.
pub(crate) fn push_alone(
    alloc: Global,
    text: &mut String,
    located: &Located,
) -> Result<(), OutOfMemory> {
    push_head(alloc, text, located)?;
    push_example(alloc, text, "For example: ", &located.finding.example)?;
    push_line(
        text,
        "What helps: ",
        rule_of_finding(located.finding.fault).help,
    )
}

/// Puts down the line that says what is wrong.
fn push_head(alloc: Global, text: &mut String, located: &Located) -> Result<(), OutOfMemory> {
    let head = head_of(alloc, located)?;
    push_all(text, &[head.as_str(), "\n"])
}

/// Puts down an example, if there is one.
fn push_example(
    alloc: Global,
    text: &mut String,
    label: &str,
    example: &Option<Tree>,
) -> Result<(), OutOfMemory> {
    match example {
        Some(tree) => push_line(text, label, &example_text(alloc, tree)?),
        None => Ok(()),
    }
}
