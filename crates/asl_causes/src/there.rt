//! What is known of the data with which a rule is broken.

use crate::causes::Cause;
use crate::flows::Explainer;
use asl_check::{FindingFault, Located};
use asl_choice::holds;
use asl_flow::effective_at;
use asl_numbered::Shapes;
use asl_path::{RefPath, print};
use asl_phrases::{Stop, difference, noted, push_line, stop_of};
use asl_shape_paths::{DoubtfulPath, find_at, missing_at};
use asl_state_edges::{Broken, Edge, Step};
use asl_states::{ChoiceRule, Delay, Kind, State};
use asl_tree::{OutOfMemory, Tree};
use std::alloc::Global;

/// What stands in front of what is known.
const THERE: &str = "What is there: ";

/// What a path to a Map's item is looked up in.
pub(crate) const ITEM: &str = "the item";

impl Explainer<'_> {
    /// Puts down what is known where the rule is broken.
    pub(crate) fn push_there(
        &self,
        shapes: &mut Shapes,
        text: &mut String,
        cause: &Cause,
    ) -> Result<(), OutOfMemory> {
        match &cause.step {
            Step::Breaks(broken) => self.push_broken(shapes, text, cause, broken),
            Step::Flows(edge) => self.push_payload(shapes, text, cause, edge),
        }
    }

    /// Puts down what is known of a broken rule.
    fn push_broken(
        &self,
        shapes: &mut Shapes,
        text: &mut String,
        cause: &Cause,
        broken: &Broken,
    ) -> Result<(), OutOfMemory> {
        match (broken.fault, &broken.path) {
            (FindingFault::PathMayBeMissing, Some(path)) => {
                self.push_stop(shapes, text, cause, broken.field, path)
            }
            (FindingFault::WrongKind, _) => self.push_named(shapes, text, cause, broken.field),
            (FindingFault::ResultMayNotFit, _) => {
                match self.misfit_text(shapes, cause, broken.field)? {
                    Some(told) => push_line(text, THERE, &told),
                    None => self.push_whole(shapes, text, "the input", cause.input),
                }
            }
            (FindingFault::IntrinsicMayFail, _) => {
                self.push_called(shapes, text, cause, broken.field)?;
                self.push_doubtful_calls(shapes, text, cause, broken.field)
            }
            _ => self.push_effective(shapes, text, cause),
        }
    }

    /// Puts down the value beyond which the path may name nothing, and the whole that it is looked up in.
    fn push_stop(
        &self,
        shapes: &mut Shapes,
        text: &mut String,
        cause: &Cause,
        field: &str,
        path: &DoubtfulPath,
    ) -> Result<(), OutOfMemory> {
        let whole = self.whole_at(shapes, cause, field, path.shape)?;
        match stop_of(self.alloc, shapes, path.shape, path.path, path.segment)? {
            Some(stop) if path.segment == 0 => self.push_stopping(shapes, text, whole, &stop),
            Some(stop) => {
                self.push_stopping(shapes, text, &stop.front, &stop)?;
                self.push_looked_up(shapes, text, whole, path.shape)
            }
            None => Ok(()),
        }
    }

    /// Puts down a value beyond which a path may name nothing, and why; `value` is what it is called.
    fn push_stopping(
        &self,
        shapes: &Shapes,
        text: &mut String,
        value: &str,
        stop: &Stop,
    ) -> Result<(), OutOfMemory> {
        let is = noted(self.alloc, shapes, stop.shape)?;
        let told = format!(in self.alloc; "{value} is {is}{}", stop.why)?;
        push_line(text, THERE, &told)
    }

    /// Puts down the whole that a path is looked up in.
    fn push_looked_up(
        &self,
        shapes: &Shapes,
        text: &mut String,
        whole: &str,
        number: usize,
    ) -> Result<(), OutOfMemory> {
        let is = noted(self.alloc, shapes, number)?;
        let told = format!(in self.alloc; "{whole}, {is}")?;
        push_line(text, "It is looked up in: ", &told)
    }

    /// What a path of that field is looked up in, which has the shape of that number: of Parameters the input, or what
    /// InputPath names in it; of a Map's ItemSelector the effective input or the item.
    pub(crate) fn whole_at(
        &self,
        shapes: &mut Shapes,
        cause: &Cause,
        field: &str,
        number: usize,
    ) -> Result<&'static str, OutOfMemory> {
        if field == "Parameters" && !self.goes_into_input(cause.state, field) {
            return Ok("what InputPath names");
        }
        if field != "ItemSelector" {
            return Ok(whole_of(field));
        }
        match self.effective_of(shapes, cause.state, cause.input)? {
            Some(effective) if effective == number => Ok("the effective input"),
            Some(_) | None => Ok(ITEM),
        }
    }

    /// Puts down a whole value.
    fn push_whole(
        &self,
        shapes: &Shapes,
        text: &mut String,
        whole: &str,
        number: usize,
    ) -> Result<(), OutOfMemory> {
        let is = noted(self.alloc, shapes, number)?;
        let told = format!(in self.alloc; "{whole} is {is}")?;
        push_line(text, THERE, &told)
    }

    /// Puts down what the calls in a template of that field are made on.
    fn push_called(
        &self,
        shapes: &mut Shapes,
        text: &mut String,
        cause: &Cause,
        field: &str,
    ) -> Result<(), OutOfMemory> {
        match (
            field,
            self.machine.state(cause.state),
            self.machine.name(cause.state),
        ) {
            ("Parameters", _, _) => match self.taken_of(shapes, cause.state, cause.input)? {
                Some(taken) => {
                    let whole = self.whole_at(shapes, cause, field, taken)?;
                    self.push_whole(shapes, text, whole, taken)
                }
                None => Ok(()),
            },
            ("ResultSelector", Some(state), Some(name)) if state.kind.is_task() => {
                let gives = self.given_by(shapes, name)?;
                self.push_whole(shapes, text, whole_of(field), gives)
            }
            ("ResultSelector", _, _) => Ok(()),
            _ => self.push_effective(shapes, text, cause),
        }
    }

    /// The number of the shape of what `InputPath` names in an input of that number, where it is sure to name something.
    pub(crate) fn taken_of(
        &self,
        shapes: &mut Shapes,
        state: usize,
        input: usize,
    ) -> Result<Option<usize>, OutOfMemory> {
        match self.machine.state(state) {
            Some(state) => match &state.settings.input_path {
                Some(path) => self.named_in(shapes, input, path),
                None => Ok(None),
            },
            None => Ok(None),
        }
    }

    /// Puts down the effective input, or the input where it isn't sure that there is one.
    fn push_effective(
        &self,
        shapes: &mut Shapes,
        text: &mut String,
        cause: &Cause,
    ) -> Result<(), OutOfMemory> {
        match self.effective_of(shapes, cause.state, cause.input)? {
            Some(number) => self.push_whole(shapes, text, "the effective input", number),
            None => self.push_whole(shapes, text, "the input", cause.input),
        }
    }

    /// The number of the shape of the state's effective input for an input of that number; none where a rule is broken in
    /// front of it, or where no tree has the input.
    pub(crate) fn effective_of(
        &self,
        shapes: &mut Shapes,
        state: usize,
        input: usize,
    ) -> Result<Option<usize>, OutOfMemory> {
        if shapes.inhabited(input) != Some(true) {
            return Ok(None);
        }
        let Some(state) = self.machine.state(state) else {
            return Ok(None);
        };
        let flow = effective_at(self.alloc, shapes, &state.settings, input)?;
        Ok(flow.ok())
    }

    /// Puts down what the path of that field names.
    fn push_named(
        &self,
        shapes: &mut Shapes,
        text: &mut String,
        cause: &Cause,
        field: &str,
    ) -> Result<(), OutOfMemory> {
        let Some(path) = self.machine.state(cause.state).and_then(path_in) else {
            return Ok(());
        };
        match self.named_in_effective(shapes, cause.state, cause.input, path)? {
            Some(named) => {
                let value = told_of_named(self.alloc, shapes, path, named)?;
                let told = format!(in self.alloc; "{value}, and {field} {}", wanted_at(field))?;
                push_line(text, THERE, &told)
            }
            None => Ok(()),
        }
    }

    /// The number of the shape of what a path names in the state's effective input for an input of that number; none where it
    /// may name nothing, or where it isn't sure that there is an effective input.
    pub(crate) fn named_in_effective(
        &self,
        shapes: &mut Shapes,
        state: usize,
        input: usize,
        path: &RefPath,
    ) -> Result<Option<usize>, OutOfMemory> {
        match self.effective_of(shapes, state, input)? {
            Some(effective) => self.named_in(shapes, effective, path),
            None => Ok(None),
        }
    }

    /// The number of the shape of what a path names in each value of a shape; none where it may name nothing.
    pub(crate) fn named_in(
        &self,
        shapes: &mut Shapes,
        number: usize,
        path: &RefPath,
    ) -> Result<Option<usize>, OutOfMemory> {
        if shapes.inhabited(number) != Some(true) {
            return Ok(None);
        }
        Ok(find_at(shapes, number, path)?.ok())
    }

    /// Whether the first `many` segments of a path are sure to name something in each value of the shape of that number.
    pub(crate) fn has_sure(
        &self,
        shapes: &mut Shapes,
        number: usize,
        path: &RefPath,
        many: usize,
    ) -> Result<bool, OutOfMemory> {
        if shapes.inhabited(number) != Some(true) {
            return Ok(false);
        }
        match find_at(shapes, number, path)? {
            Ok(_) => Ok(true),
            Err(doubtful) => Ok(many <= doubtful.segment),
        }
    }

    /// Puts down a payload, what the task takes, and where the one isn't within the other.
    fn push_payload(
        &self,
        shapes: &mut Shapes,
        text: &mut String,
        cause: &Cause,
        edge: &Edge,
    ) -> Result<(), OutOfMemory> {
        self.push_whole(shapes, text, "the payload", edge.flowing)?;
        match self.machine.name(cause.state) {
            Some(name) => self.push_wanted(shapes, text, name, edge.flowing),
            None => Ok(()),
        }
    }

    /// Puts down what the task of that name takes, and where a payload of that number isn't within it.
    fn push_wanted(
        &self,
        shapes: &mut Shapes,
        text: &mut String,
        name: &str,
        payload: usize,
    ) -> Result<(), OutOfMemory> {
        let takes = self.taken_by(shapes, name)?;
        let wanted = noted(self.alloc, shapes, takes)?;
        push_line(text, "What the task takes: ", &wanted)?;
        let apart = difference(self.alloc, shapes, payload, takes, "the task")?;
        push_line(text, "Where it doesn't fit: ", &apart.text)
    }

    /// A tree that shows the rule to be broken with this data: one in which the path names nothing, or a payload that the task
    /// doesn't take; none where the rule is broken in another way.
    pub(crate) fn example_of(
        &self,
        shapes: &mut Shapes,
        cause: &Cause,
    ) -> Result<Option<Tree>, OutOfMemory> {
        match &cause.step {
            Step::Breaks(
                Broken {
                    path: Some(path),
                    ..
                },
            ) => self.example_without(shapes, path),
            Step::Breaks(_) => Ok(None),
            Step::Flows(edge) => match self.machine.name(cause.state) {
                Some(name) => {
                    let takes = self.taken_by(shapes, name)?;
                    shapes.outside(self.alloc, edge.flowing, takes)
                }
                None => Ok(None),
            },
        }
    }

    /// A tree in which a path that may name nothing does so.
    fn example_without(
        &self,
        shapes: &mut Shapes,
        path: &DoubtfulPath,
    ) -> Result<Option<Tree>, OutOfMemory> {
        if shapes.inhabited(path.shape) != Some(true) {
            return Ok(None);
        }
        missing_at(self.alloc, shapes, path.shape, path.path)
    }

    /// A tree for which no rule of a Choice is true, where the first example of what comes to it is one.
    pub(crate) fn unchosen(
        &self,
        shapes: &mut Shapes,
        cause: &Cause,
    ) -> Result<Option<Tree>, OutOfMemory> {
        let Some(Kind::Choice { choices, .. }) = self.kind_of(cause.state) else {
            return Ok(None);
        };
        let Some(effective) = self.effective_of(shapes, cause.state, cause.input)? else {
            return Ok(None);
        };
        match shapes.example(self.alloc, effective)? {
            Some(tree) if choices.iter().all(|rule| is_false(rule, &tree)) => Ok(Some(tree)),
            Some(_) | None => Ok(None),
        }
    }

    /// The type of the state of that number.
    fn kind_of(&self, state: usize) -> Option<&Kind> {
        Some(&self.machine.state(state)?.kind)
    }
}

/// A path, and the shape of that number of what it names.
pub(crate) fn told_of_named(
    alloc: Global,
    shapes: &Shapes,
    path: &RefPath,
    number: usize,
) -> Result<String, OutOfMemory> {
    let path = print(alloc, path)?;
    let is = noted(alloc, shapes, number)?;
    Ok(format!(in alloc; "{path} is {is}")?)
}

/// Whether the rule is false of the tree.
fn is_false(rule: &ChoiceRule, tree: &Tree) -> bool {
    match holds(&rule.test, tree) {
        Ok(holds) => !holds,
        Err(_) => false,
    }
}

/// The path of a state that has to name a value of some kind.
pub(crate) fn path_in(state: &State) -> Option<&RefPath> {
    match &state.kind {
        Kind::Map { items_path, .. } => Some(items_path),
        Kind::Wait {
            delay: Delay::SecondsPath(path) | Delay::TimestampPath(path),
        } => Some(path),
        _ => None,
    }
}

/// What a field wants its path to name.
fn wanted_at(field: &str) -> &'static str {
    match field {
        "ItemsPath" => "needs a list",
        "SecondsPath" => "needs a whole number",
        "TimestampPath" => "needs a text",
        _ => "needs another kind",
    }
}

/// What the paths of a field are looked up in.
fn whole_of(field: &str) -> &'static str {
    match field {
        "InputPath" | "Parameters" => "the input",
        "ResultSelector" => "the result",
        "OutputPath" => "the output before OutputPath",
        _ => "the effective input",
    }
}
