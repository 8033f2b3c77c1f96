//! Data that comes from a state's own result, or from what its settings make, and not from its input.

use crate::causes::Cause;
use crate::flows::Explainer;
use crate::sources::Source;
use asl_numbered::Shapes;
use asl_path::RefPath;
use asl_phrases::front_of;
use asl_state_edges::{Broken, Step};
use asl_states::{Kind, State};
use asl_tree::OutOfMemory;

impl<'m> Explainer<'m> {
    /// Where the data comes from with which the rule of a field is broken, where that isn't the state's input.
    pub(crate) fn own_origin(
        &self,
        shapes: &mut Shapes,
        cause: &Cause<'m>,
        field: &str,
    ) -> Result<Option<&'static str>, OutOfMemory> {
        let Some(state) = self.machine.state(cause.state) else {
            return Ok(None);
        };
        match cause.step {
            Step::Breaks(
                Broken {
                    path: Some(path),
                    ..
                },
            ) => match self.source_of_path(shapes, cause, field, &path)? {
                Some(traced) => Ok(words_on(&traced.source, state)),
                None => Ok(None),
            },
            Step::Breaks(_) | Step::Flows(_) => Ok(own_result(state, field)),
        }
    }

    /// That ResultPath makes the object into which the path of the rule of a field goes, where that is so for data with which
    /// the rule is broken.
    pub(crate) fn built_origin(
        &self,
        shapes: &mut Shapes,
        cause: &Cause<'m>,
        field: &str,
    ) -> Result<Option<String>, OutOfMemory> {
        let Step::Breaks(
            Broken {
                path: Some(path),
                ..
            },
        ) = cause.step
        else {
            return Ok(None);
        };
        match self.source_of_path(shapes, cause, field, &path)? {
            Some(traced) if matches!(traced.source, Source::Built) => {
                let object = front_of(self.alloc, path.path, path.segment)?;
                let input = self.called_input(cause);
                Ok(Some(format!(in self.alloc;
                    "ResultPath, which makes {object} where {input} lacks it"
                )?))
            }
            Some(_) | None => Ok(None),
        }
    }

    /// What the input of a state is called.
    pub(crate) fn called_input(&self, cause: &Cause) -> &'static str {
        if self.is_at_start(cause) {
            "the machine's input"
        } else {
            "the input"
        }
    }

    /// Whether the paths of that field go into the state's input as it comes.
    pub(crate) fn goes_into_input(&self, state: usize, field: &str) -> bool {
        let Some(state) = self.machine.state(state) else {
            return false;
        };
        match field {
            "InputPath" => true,
            "Parameters" => is_whole(&state.settings.input_path),
            "Choices" | "ItemsPath" | "SecondsPath" | "TimestampPath" => {
                is_whole(&state.settings.input_path) && state.settings.parameters.is_none()
            }
            _ => false,
        }
    }
}

/// What a source is, where it isn't the state's input.
fn words_on(source: &Source, state: &State) -> Option<&'static str> {
    match source {
        Source::Input | Source::Built => None,
        Source::Work => result_of(state),
        Source::Emptied => Some("InputPath null, which leaves {} of the input"),
        Source::Made("Parameters") => Some("what Parameters makes of the input"),
        Source::Made(_) => Some("what ResultSelector makes of the result"),
    }
}

/// Where data of that field comes from, where that is the state's own result, whatever its input is.
fn own_result(state: &State, field: &str) -> Option<&'static str> {
    match field {
        "ResultSelector" => result_of(state),
        "OutputPath" if is_whole(&state.settings.result_path) => result_of(state),
        _ => None,
    }
}

/// Whether the path names the whole.
pub(crate) fn is_whole(path: &Option<RefPath>) -> bool {
    match path {
        Some(path) => path.segments().is_empty(),
        None => false,
    }
}

/// What the result of a state is, where it has one that isn't its effective input.
fn result_of(state: &State) -> Option<&'static str> {
    match &state.kind {
        Kind::Task { .. } => Some("what the task gives, as it is declared"),
        Kind::Parallel { .. } => Some("what the branches end with"),
        Kind::Map { .. } => Some("what the items end with"),
        Kind::Pass { result: Some(_) } => Some("its Result"),
        Kind::Pass { result: None }
        | Kind::Choice { .. }
        | Kind::Wait { .. }
        | Kind::Succeed
        | Kind::Fail { .. } => None,
    }
}
