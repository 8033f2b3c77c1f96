//! Calls of intrinsic functions that may have no value.

use crate::causes::Cause;
use crate::flows::Explainer;
use asl_flow::{TemplateShapeRefusal, template_shape_at};
use asl_intrinsic::{Arg, Call};
use asl_numbered::Shapes;
use asl_path::{RefPath, print};
use asl_phrases::push_line;
use asl_states::{Kind, State};
use asl_template::Template;
use asl_tree::{OutOfMemory, quoted};
use std::alloc::Global;
use std::collections::BTreeMap;

/// What `States.ArrayLength` needs.
const LENGTH_NEEDS: &str = "States.ArrayLength needs one argument, which is always a list. ";

/// What `States.Format` needs.
const FORMAT_NEEDS: &str =
    "States.Format needs as its first argument a text that is written in the call, with as many holes \
    {} as further arguments follow, none of which may be a list or an object. ";

/// What the paths among arguments need.
const PATHS_NEED: &str =
    "What a path among the arguments names has to be there always: see to it in the states in front, or \
    declare it so where it comes from the machine's input or from a task.";

/// A call in a template.
#[derive(Clone, Copy, Drop)]
struct Called<'t> {
    /// The name of the nearest field of an object, without its suffix.
    name: &'t str,
    /// The part of the template that the call is.
    part: &'t Template,
    call: &'t Call,
}

/// Which functions are called that don't take everything.
#[derive(Clone, Copy, Drop)]
struct Functions {
    length: bool,
    format: bool,
}

impl<'m> Explainer<'m> {
    /// Puts down in which fields the calls stand that may have no value, and the paths among their arguments that may name
    /// nothing.
    pub(crate) fn push_doubtful_calls(
        &self,
        shapes: &mut Shapes,
        text: &mut String,
        cause: &Cause,
        field: &str,
    ) -> Result<(), OutOfMemory> {
        let calls = self.doubtful_calls(shapes, cause, field)?;
        let names = names_of(self.alloc, &calls)?;
        if names.is_empty() {
            return Ok(());
        }
        push_line(text, "Where it is called: ", &names)?;
        match self.source_of(shapes, cause, field)? {
            Some(source) => self.push_missing_among(shapes, text, &calls, source),
            None => Ok(()),
        }
    }

    /// Puts down the paths among the arguments of these calls that may name nothing in an input of that number, if there are
    /// some.
    fn push_missing_among(
        &self,
        shapes: &mut Shapes,
        text: &mut String,
        calls: &[Called],
        source: usize,
    ) -> Result<(), OutOfMemory> {
        let mut paths = Vec::new(self.alloc);
        for called in calls {
            push_paths(&mut paths, called.call)?;
        }
        let missing = self.missing_among(shapes, &paths, source)?;
        if missing.is_empty() {
            return Ok(());
        }
        push_line(text, "What may name nothing: ", &missing)
    }

    /// Those of the paths that may name nothing in an input of that number, each as often as it stands there.
    fn missing_among(
        &self,
        shapes: &mut Shapes,
        paths: &[&RefPath],
        source: usize,
    ) -> Result<String, OutOfMemory> {
        let mut text = String::new(self.alloc);
        if shapes.inhabited(source) != Some(true) {
            return Ok(text);
        }
        for path in paths {
            if self.named_in(shapes, source, path)?.is_none() {
                if !text.is_empty() {
                    text.push_str(", ")?;
                }
                text.push_str(&print(self.alloc, path)?)?;
            }
        }
        Ok(text)
    }

    /// What helps against calls that may have no value: what the functions need.
    pub(crate) fn help_with_call(
        &self,
        shapes: &mut Shapes,
        cause: &Cause,
        field: &str,
    ) -> Result<String, OutOfMemory> {
        let mut functions = Functions {
            length: false,
            format: false,
        };
        for called in &self.doubtful_calls(shapes, cause, field)? {
            note_call(&mut functions, called.call);
        }
        let mut text = String::new(self.alloc);
        if functions.length {
            text.push_str(LENGTH_NEEDS)?;
        }
        if functions.format {
            text.push_str(FORMAT_NEEDS)?;
        }
        text.push_str(PATHS_NEED)?;
        Ok(text)
    }

    /// The calls in the template of that field that may have no value; all calls where it isn't known on what they are made.
    fn doubtful_calls(
        &self,
        shapes: &mut Shapes,
        cause: &Cause,
        field: &str,
    ) -> Result<Vec<Called<'m>>, OutOfMemory> {
        let mut calls = Vec::new(self.alloc);
        let Some(state) = self.machine.state(cause.state) else {
            return Ok(calls);
        };
        if let Some(template) = template_at(state, field) {
            push_calls(&mut calls, "", template)?;
        }
        match self.source_of(shapes, cause, field)? {
            Some(source) => self.doubtful_among(shapes, &calls, source),
            None => Ok(calls),
        }
    }

    /// Those calls that may have no value for an input of that number.
    fn doubtful_among(
        &self,
        shapes: &mut Shapes,
        calls: &[Called<'m>],
        source: usize,
    ) -> Result<Vec<Called<'m>>, OutOfMemory> {
        let mut doubtful = Vec::new(self.alloc);
        for called in calls {
            if self.may_fail(shapes, called.part, source)? {
                doubtful.push(*called)?;
            }
        }
        Ok(doubtful)
    }

    /// Whether that part of a template may have no value for an input of that number.
    fn may_fail(
        &self,
        shapes: &mut Shapes,
        part: &Template,
        source: usize,
    ) -> Result<bool, OutOfMemory> {
        if source >= shapes.len() {
            return Ok(false);
        }
        match template_shape_at(self.alloc, shapes, part, source, None) {
            Ok(_) => Ok(false),
            Err(TemplateShapeRefusal::OutOfMemory) => Err(OutOfMemory),
            Err(_) => Ok(true),
        }
    }

    /// The number of the shape of what the template of that field is evaluated on, where that is easily told.
    fn source_of(
        &self,
        shapes: &mut Shapes,
        cause: &Cause,
        field: &str,
    ) -> Result<Option<usize>, OutOfMemory> {
        match (
            field,
            self.machine.state(cause.state),
            self.machine.name(cause.state),
        ) {
            ("Parameters", _, _) => self.taken_of(shapes, cause.state, cause.input),
            ("ResultSelector", Some(state), Some(name)) => match state.kind {
                Kind::Task { .. } => Ok(Some(self.given_by(shapes, name)?)),
                _ => Ok(None),
            },
            _ => Ok(None),
        }
    }
}

/// The template of that field of a state.
fn template_at<'m>(state: &'m State, field: &str) -> Option<&'m Template> {
    match field {
        "Parameters" => state.settings.parameters.as_ref(),
        "ResultSelector" => state.settings.result_selector.as_ref(),
        "ItemSelector" => match &state.kind {
            Kind::Map { item_selector, .. } => item_selector.as_ref(),
            _ => None,
        },
        _ => None,
    }
}

/// Adds the calls in a template; `name` is that of the nearest field around it.
#[cycle(calls)]
fn push_calls<'t>(
    calls: &mut Vec<Called<'t>>,
    name: &'t str,
    template: &'t Template,
) -> Result<(), OutOfMemory> {
    match template {
        Template::Call(call) => {
            calls.push(Called {
                name,
                part: template,
                call,
            })?;
            Ok(())
        }
        Template::List(parts) => push_in_list(calls, name, parts),
        Template::Object(fields) => push_in_fields(calls, fields),
        Template::Literal(_) | Template::Path(_) | Template::ItemIndex | Template::ItemValue(_) => {
            Ok(())
        }
    }
}

/// Adds those in the elements of a list.
#[cycle(calls)]
fn push_in_list<'t>(
    calls: &mut Vec<Called<'t>>,
    name: &'t str,
    parts: &'t [Template],
) -> Result<(), OutOfMemory> {
    for part in parts {
        push_calls(calls, name, part)?;
    }
    Ok(())
}

/// Adds those in the fields of an object.
#[cycle(calls)]
fn push_in_fields<'t>(
    calls: &mut Vec<Called<'t>>,
    fields: &'t BTreeMap<String, Template>,
) -> Result<(), OutOfMemory> {
    for (name, part) in fields.iter() {
        push_calls(calls, name, part)?;
    }
    Ok(())
}

/// Notes the functions of a call and of those among its arguments.
#[cycle(functions)]
fn note_call(functions: &mut Functions, call: &Call) {
    match call {
        Call::Array(arguments) => note_arguments(functions, arguments),
        Call::ArrayLength(arguments) => {
            functions.length = true;
            note_arguments(functions, arguments);
        }
        Call::Format(arguments) => {
            functions.format = true;
            note_arguments(functions, arguments);
        }
    }
}

/// Notes the functions of the calls among arguments.
#[cycle(functions)]
fn note_arguments(functions: &mut Functions, arguments: &[Arg]) {
    for argument in arguments {
        if let Arg::Call(call) = argument {
            note_call(functions, call);
        }
    }
}

/// Adds the paths among the arguments of a call, and of the calls among these.
#[cycle(paths)]
fn push_paths<'t>(paths: &mut Vec<&'t RefPath>, call: &'t Call) -> Result<(), OutOfMemory> {
    match call {
        Call::Array(arguments) | Call::ArrayLength(arguments) | Call::Format(arguments) => {
            push_paths_among(paths, arguments)
        }
    }
}

/// Adds those among arguments.
#[cycle(paths)]
fn push_paths_among<'t>(
    paths: &mut Vec<&'t RefPath>,
    arguments: &'t [Arg],
) -> Result<(), OutOfMemory> {
    for argument in arguments {
        match argument {
            Arg::Path(path) => paths.push(path)?,
            Arg::Call(call) => push_paths(paths, call)?,
            _ => {}
        }
    }
    Ok(())
}

/// The names of the fields of calls as a definition spells them, each once where it stands several times in a row.
fn names_of(alloc: Global, calls: &[Called]) -> Result<String, OutOfMemory> {
    let mut text = String::new(alloc);
    let mut last = "";
    for called in calls {
        if called.name == last {
            continue;
        }
        if !text.is_empty() {
            text.push_str(", ")?;
        }
        let spelled = format!(in alloc; "{}.$", called.name)?;
        text.push_str(&quoted(alloc, &spelled)?)?;
        last = called.name;
    }
    Ok(text)
}
