//! What helps where a state makes data itself, and a path goes into that.

use crate::causes::Cause;
use crate::flows::Explainer;
use crate::places::Place;
use crate::sources::Source;
use asl_numbered::Shapes;
use asl_phrases::{Stop, front_of};
use asl_states::{Kind, Settings};
use asl_tree::OutOfMemory;
use std::alloc::Global;

impl Explainer<'_> {
    /// The field of the definition that makes the data at a place, where it is made there.
    pub(crate) fn maker_of(&self, place: &Place, cause: &Cause) -> Option<&'static str> {
        let state = self.machine.state(cause.state)?;
        match (place.source?, &state.kind) {
            (Source::Made(field), _) => Some(field),
            (Source::Work, Kind::Pass { .. }) => Some("Result"),
            _ => None,
        }
    }

    /// To have a template or a Result make what a path of that field names, or to have the path name what is made.
    pub(crate) fn help_with_maker(
        &self,
        shapes: &Shapes,
        field: &str,
        place: &Place,
        stop: &Stop,
        maker: &str,
    ) -> Result<String, OutOfMemory> {
        let change = if takes_part(shapes, stop) {
            self.words_to_add(place, maker)?
        } else {
            self.words_to_make(place, stop, maker)?
        };
        let source = match maker {
            "Parameters" => "input",
            "ResultSelector" => "result",
            _ => return Ok(format!(in self.alloc;
                "{change}, or let {field} name something that it has."
            )?),
        };
        Ok(format!(in self.alloc;
            "{change}, or let {field} name something that it makes: nothing else of the {source} is left behind it."
        )?)
    }

    /// To add what is absent to what a template or a Result makes.
    fn words_to_add(&self, place: &Place, maker: &str) -> Result<String, OutOfMemory> {
        let absent = place.absent.as_str();
        match maker {
            "Result" => Ok(format!(in self.alloc; "Add {absent} to {maker}")?),
            _ => Ok(format!(in self.alloc; "Add {absent} to what {maker} makes")?),
        }
    }

    /// To have a template or a Result make an object or a list with what is absent, where it makes something to which nothing
    /// can be added.
    fn words_to_make(
        &self,
        place: &Place,
        stop: &Stop,
        maker: &str,
    ) -> Result<String, OutOfMemory> {
        let absent = place.absent.as_str();
        let kind = if stop.is_field { "an object" } else { "a list" };
        match (place.front.as_str(), maker) {
            ("$", _) => Ok(format!(in self.alloc; "Make {maker} {kind} with {absent}")?),
            (front, "Result") => Ok(format!(in self.alloc;
                "Make {front} of {maker} {kind} with {absent}"
            )?),
            (front, _) => Ok(format!(in self.alloc;
                "Make {front} of what {maker} makes {kind} with {absent}"
            )?),
        }
    }

    /// To have something beside the result where ResultPath makes the object in which it stands.
    pub(crate) fn help_with_built(
        &self,
        field: &str,
        place: &Place,
        stop: &Stop,
        cause: &Cause,
    ) -> Result<String, OutOfMemory> {
        let name = self.words_to_name(field, cause)?;
        if !stop.is_field {
            return Ok(format!(in self.alloc; "{name}.")?);
        }
        let unsure = place.unsure.as_str();
        let input = self.called_input(cause);
        let said = if self.is_at_start(cause) {
            ", and declare it so"
        } else {
            ""
        };
        Ok(format!(in self.alloc;
            "{name}; or see that {input} always has {unsure}, which ResultPath keeps there{said}."
        )?)
    }

    /// To name something in the result, by its place.
    fn words_to_name(&self, field: &str, cause: &Cause) -> Result<String, OutOfMemory> {
        let result = match self.machine.state(cause.state) {
            Some(state) => text_of_place(self.alloc, &state.settings)?,
            None => String::from_str(self.alloc, "$")?,
        };
        Ok(format!(in self.alloc;
            "Let {field} name something in {result}, where the result is placed"
        )?)
    }

    /// To keep an input of which nothing is left.
    pub(crate) fn help_with_emptied(&self, place: &Place) -> Result<String, OutOfMemory> {
        let absent = place.absent.as_str();
        Ok(format!(in self.alloc;
            "Take out \"InputPath\": null, which leaves {{}} of the input; or do without {absent} here."
        )?)
    }
}

/// The place of a state's result in its output, as a path.
fn text_of_place(alloc: Global, settings: &Settings) -> Result<String, OutOfMemory> {
    match &settings.result_path {
        Some(path) => front_of(alloc, path, path.segments().len()),
        None => Ok(String::from_str(alloc, "$")?),
    }
}

/// Whether a part of its kind can be added to the value beyond which a path stops, as a field to an object.
fn takes_part(shapes: &Shapes, stop: &Stop) -> bool {
    match shapes.take_apart(stop.shape) {
        Some(kinds) if stop.is_field => kinds.objects.is_some(),
        Some(kinds) => kinds.arrays.is_some(),
        None => true,
    }
}
