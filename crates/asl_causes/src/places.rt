//! The place where a path may name nothing, in the words of what it comes from.

use crate::causes::Cause;
use crate::flows::Explainer;
use crate::results::is_whole;
use crate::sources::{Source, Traced};
use asl_numbered::Shapes;
use asl_path::RefPath;
use asl_phrases::{Stop, cut, front_of, stretch_of};
use asl_shape_paths::DoubtfulPath;
use asl_states::Settings;
use asl_tree::OutOfMemory;
use std::alloc::Global;

/// The place where a path may name nothing, with its paths into what it comes from.
#[derive(Drop)]
pub(crate) struct Place {
    /// What it comes from; none for a Map's item.
    pub(crate) source: Option<Source>,
    /// What its paths go into.
    pub(crate) whole: &'static str,
    /// The path up to the value that may lack something.
    pub(crate) front: String,
    /// The path up to what this value may lack.
    pub(crate) absent: String,
    /// The path up to the last part that may be absent.
    pub(crate) unsure: String,
    /// The same path as the state's field has it.
    pub(crate) own: String,
    /// The same path as a state behind has it, where that is easily told and else as the source has it; none where no state
    /// behind has it.
    pub(crate) behind: Option<String>,
}

impl<'m> Explainer<'m> {
    /// The place where the path of a broken rule of that field stops.
    pub(crate) fn place_of_stop(
        &self,
        shapes: &mut Shapes,
        cause: &Cause<'m>,
        field: &str,
        path: &DoubtfulPath<'m>,
        stop: &Stop,
    ) -> Result<Place, OutOfMemory> {
        let whole = self.whole_at(shapes, cause, field, path.shape)?;
        match self.source_of_path(shapes, cause, field, path)? {
            Some(traced) => self.traced_place(cause, field, path, stop, (whole, &traced)),
            None => self.own_place(whole, path.path, stop),
        }
    }

    /// The place in the words of its source; the last is what its field looks it up in, and where it comes from.
    fn traced_place(
        &self,
        cause: &Cause<'m>,
        field: &str,
        path: &DoubtfulPath<'m>,
        stop: &Stop,
        found: (&'static str, &Traced<'m>),
    ) -> Result<Place, OutOfMemory> {
        let (alloc, many) = (self.alloc, stop.many_unsure);
        let (whole, traced) = found;
        let own = front_of(alloc, path.path, many)?;
        let unsure = traced.text(alloc, path.path, many)?;
        let behind = match (field, self.machine.state(cause.state)) {
            ("OutputPath", _) => Some(own.clone()?),
            (_, Some(state)) => text_behind(alloc, &state.settings, &unsure)?,
            (_, None) => None,
        };
        Ok(Place {
            source: Some(traced.source),
            whole: whole_traced(field, whole, traced),
            front: traced.text(alloc, path.path, path.segment)?,
            absent: traced.text(alloc, path.path, path.segment.saturating_add(1))?,
            unsure,
            own,
            behind,
        })
    }

    /// The place in the words of its field.
    fn own_place(
        &self,
        whole: &'static str,
        path: &RefPath,
        stop: &Stop,
    ) -> Result<Place, OutOfMemory> {
        let own = front_of(self.alloc, path, stop.many_unsure)?;
        Ok(Place {
            source: None,
            whole,
            front: stop.front.clone()?,
            absent: stop.absent.clone()?,
            unsure: own.clone()?,
            own,
            behind: None,
        })
    }
}

/// What the paths of a traced place go into; `whole` is what its field looks them up in.
fn whole_traced(field: &str, whole: &'static str, traced: &Traced) -> &'static str {
    match traced.source {
        Source::Input if traced.is_plain() && field != "OutputPath" => whole,
        Source::Input => "the input",
        Source::Work => "the result",
        Source::Made(_) | Source::Built | Source::Emptied => whole,
    }
}

/// The path into a state's result as a state behind has it, where the result is placed in its output, which is handed on whole,
/// and else the path itself; none where the result is dropped.
fn text_behind(
    alloc: Global,
    settings: &Settings,
    path: &str,
) -> Result<Option<String>, OutOfMemory> {
    let Some(front) = &settings.result_path else {
        return Ok(None);
    };
    if !is_whole(&settings.output_path) {
        return Ok(Some(String::from_str(alloc, path)?));
    }
    let mut text = String::from_str(alloc, "$")?;
    text.push_str(&stretch_of(alloc, front, 0, front.segments().len())?)?;
    text.push_str(path.get(1..).unwrap_or(""))?;
    Ok(Some(cut(alloc, &text)?))
}

/// The path, or that it is the one that was named last.
pub(crate) fn it_or<'t>(named: &str, path: &'t str) -> &'t str {
    if named == path { "it" } else { path }
}
