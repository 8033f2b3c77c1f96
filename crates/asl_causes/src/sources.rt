//! Where in a state what a path names comes from: by its settings, whatever the data is.

use crate::causes::Cause;
use crate::flows::Explainer;
use crate::there::ITEM;
use asl_numbered::Shapes;
use asl_path::{RefPath, Segment};
use asl_phrases::{Piece, cut, stretch_of};
use asl_shape_paths::DoubtfulPath;
use asl_states::{Kind, Settings, State};
use asl_template::Template;
use asl_tree::OutOfMemory;
use std::alloc::Global;

/// What a place in a state's data comes from.
#[derive(Clone, Copy, Drop)]
pub(crate) enum Source {
    /// The state's input.
    Input,
    /// What the state does: what its task gives, what its branches or items end with, or its Result.
    Work,
    /// What the template of that field makes.
    Made(&'static str),
    /// ResultPath, which makes an object where the input has none.
    Built,
    /// An InputPath that is null.
    Emptied,
}

/// A place as its source has it: what the two paths lead to, one behind the other, and there what is left of the path to the
/// place when so many of its first segments are dropped.
#[derive(Clone, Copy, Drop)]
pub(crate) struct Traced<'m> {
    pub(crate) source: Source,
    pub(crate) input_path: Option<&'m RefPath>,
    pub(crate) filled: Option<&'m RefPath>,
    pub(crate) dropped: usize,
}

/// What a template has at a place.
#[derive(Clone, Copy, Drop)]
enum Filling<'t> {
    /// What a path names, which stands behind so many pieces of the place.
    Named(&'t RefPath, usize),
    /// What it makes itself, or nothing.
    Own,
}

impl<'m> Explainer<'m> {
    /// Where what the path of a broken rule of that field names comes from; none where that is a Map's item.
    pub(crate) fn source_of_path(
        &self,
        shapes: &mut Shapes,
        cause: &Cause,
        field: &str,
        path: &DoubtfulPath,
    ) -> Result<Option<Traced<'m>>, OutOfMemory> {
        let Some(state) = self.machine.state(cause.state) else {
            return Ok(None);
        };
        if field == "ItemSelector" && self.whole_at(shapes, cause, field, path.shape)? == ITEM {
            return Ok(None);
        }
        let many = path.segment.saturating_add(1);
        let pieces = pieces_of(self.alloc, path.path, many)?;
        let traced = trace(state, field, &pieces);
        if matches!(traced.source, Source::Built)
            && self.is_in_input(shapes, &state.settings, cause.input, path.segment)?
        {
            return Ok(Some(in_input()));
        }
        Ok(Some(traced))
    }

    /// Whether the object to which the first `many` segments of ResultPath go is the input's own in each input of the shape of
    /// that number.
    fn is_in_input(
        &self,
        shapes: &mut Shapes,
        settings: &Settings,
        number: usize,
        many: usize,
    ) -> Result<bool, OutOfMemory> {
        match &settings.result_path {
            Some(path) => self.has_sure(shapes, number, path, many),
            None => Ok(false),
        }
    }
}

impl Traced<'_> {
    /// The text of the first `many` segments of the path to the place, as the source has them, cut where it is long.
    pub(crate) fn text(
        &self,
        alloc: Global,
        path: &RefPath,
        many: usize,
    ) -> Result<String, OutOfMemory> {
        let mut text = String::from_str(alloc, "$")?;
        for front in [self.input_path, self.filled] {
            if let Some(front) = front {
                text.push_str(&stretch_of(alloc, front, 0, front.segments().len())?)?;
            }
        }
        text.push_str(&stretch_of(alloc, path, self.dropped, many)?)?;
        cut(alloc, &text)
    }

    /// Whether it is the state's input, into which the path goes as it is.
    pub(crate) fn is_plain(&self) -> bool {
        let has_front = [self.input_path, self.filled].iter().any(|front| front.is_some_and(
            |front| !front.segments().is_empty(),
        ));
        matches!(self.source, Source::Input) && !has_front && self.dropped == 0
    }
}

/// The pieces by which the first `many` segments of a path go.
fn pieces_of(alloc: Global, path: &RefPath, many: usize) -> Result<Vec<Piece>, OutOfMemory> {
    let mut pieces = Vec::new(alloc);
    for segment in path.segments().iter().take(many) {
        pieces.push(match segment {
            Segment::Name(name) => Piece::Field(String::from_str(alloc, name)?),
            Segment::Index(index) => Piece::Element(*index as usize),
        })?;
    }
    Ok(pieces)
}

/// Where the place comes from that a path of that field goes to by those pieces.
fn trace<'m>(state: &'m State, field: &str, pieces: &[Piece]) -> Traced<'m> {
    match field {
        "InputPath" => in_input(),
        "Parameters" => in_taken(&state.settings, None, 0),
        "ResultSelector" => in_work(state, None, pieces, 0),
        "OutputPath" => in_output(state, pieces),
        _ => in_effective(&state.settings, pieces, 0),
    }
}

/// The place in the state's input to which the path goes as it is.
fn in_input<'m>() -> Traced<'m> {
    Traced {
        source: Source::Input,
        input_path: None,
        filled: None,
        dropped: 0,
    }
}

/// The place in what InputPath names.
fn in_taken<'m>(settings: &'m Settings, filled: Option<&'m RefPath>, dropped: usize) -> Traced<'m> {
    Traced {
        source: match settings.input_path {
            Some(_) => Source::Input,
            None => Source::Emptied,
        },
        input_path: settings.input_path.as_ref(),
        filled,
        dropped,
    }
}

/// The place in what a template makes.
fn in_made<'m>(field: &'static str, dropped: usize) -> Traced<'m> {
    Traced {
        source: Source::Made(field),
        input_path: None,
        filled: None,
        dropped,
    }
}

/// The place in the effective input, behind so many of the pieces.
pub(crate) fn in_effective<'m>(
    settings: &'m Settings,
    pieces: &[Piece],
    dropped: usize,
) -> Traced<'m> {
    match &settings.parameters {
        Some(template) => match filled_by(template, pieces, dropped) {
            Filling::Named(path, dropped) => in_taken(settings, Some(path), dropped),
            Filling::Own => in_made("Parameters", dropped),
        },
        None => in_taken(settings, None, dropped),
    }
}

/// The place in an object that ResultPath makes where the input has none.
fn in_built<'m>() -> Traced<'m> {
    Traced {
        source: Source::Built,
        input_path: None,
        filled: None,
        dropped: 0,
    }
}

/// The place in the output before OutputPath: in the result where that is placed there, in what ResultPath may make on its way
/// to the result, else in the input around it.
fn in_output<'m>(state: &'m State, pieces: &[Piece]) -> Traced<'m> {
    if !has_result(state) {
        return in_effective(&state.settings, pieces, 0);
    }
    match &state.settings.result_path {
        Some(path) if is_front(path, pieces) => in_result(state, pieces, path.segments().len()),
        Some(path) if is_beside(path, pieces) => in_built(),
        Some(_) | None => in_input(),
    }
}

/// The place in what ResultSelector makes of the result, or in the result where there is none.
fn in_result<'m>(state: &'m State, pieces: &[Piece], dropped: usize) -> Traced<'m> {
    match &state.settings.result_selector {
        Some(template) => match filled_by(template, pieces, dropped) {
            Filling::Named(path, dropped) => in_work(state, Some(path), pieces, dropped),
            Filling::Own => in_made("ResultSelector", dropped),
        },
        None => in_work(state, None, pieces, dropped),
    }
}

/// The place in what the state does, which is the effective input for a Pass without Result.
fn in_work<'m>(
    state: &'m State,
    filled: Option<&'m RefPath>,
    pieces: &[Piece],
    dropped: usize,
) -> Traced<'m> {
    match state.kind {
        Kind::Pass { result: None } => in_effective(&state.settings, pieces, dropped),
        _ => Traced {
            source: Source::Work,
            input_path: None,
            filled,
            dropped,
        },
    }
}

/// Whether a state has a result, which goes through ResultPath.
fn has_result(state: &State) -> bool {
    match state.kind {
        Kind::Pass { .. } | Kind::Task { .. } | Kind::Parallel { .. } | Kind::Map { .. } => true,
        Kind::Choice { .. } | Kind::Wait { .. } | Kind::Succeed | Kind::Fail { .. } => false,
    }
}

/// Whether the segments of a path are the first pieces.
fn is_front(path: &RefPath, pieces: &[Piece]) -> bool {
    let segments = path.segments();
    segments.len() <= pieces.len()
        && segments
            .iter()
            .zip(pieces.iter())
            .all(|(segment, piece)| is_piece(segment, piece))
}

/// Whether the pieces but the last go along a path, though not to its end, so that the last one goes into what is on its way.
fn is_beside(path: &RefPath, pieces: &[Piece]) -> bool {
    let segments = path.segments();
    match pieces.split_last() {
        Some((_, front)) => {
            !front.is_empty()
                && front.len() < segments.len()
                && front
                    .iter()
                    .zip(segments.iter())
                    .all(|(piece, segment)| is_piece(segment, piece))
        }
        None => false,
    }
}

/// Whether a segment goes as the piece does.
fn is_piece(segment: &Segment, piece: &Piece) -> bool {
    match (segment, piece) {
        (Segment::Name(name), Piece::Field(field)) => name.as_str() == field.as_str(),
        (Segment::Index(index), Piece::Element(element)) => *index as usize == *element,
        _ => false,
    }
}

/// What a template has at the place to which the pieces go behind the first `dropped`.
fn filled_by<'t>(template: &'t Template, pieces: &[Piece], dropped: usize) -> Filling<'t> {
    let mut part = template;
    let mut place = dropped;
    for piece in pieces.iter().skip(dropped) {
        match part_at(part, piece) {
            Some(inner) => part = inner,
            None => break,
        }
        place = place.saturating_add(1);
    }
    match part {
        Template::Path(path) => Filling::Named(path, place),
        _ => Filling::Own,
    }
}

/// The part of a template to which the piece goes.
fn part_at<'t>(template: &'t Template, piece: &Piece) -> Option<&'t Template> {
    match (template, piece) {
        (Template::Object(fields), Piece::Field(name)) => fields.get(name.as_str()),
        (Template::List(parts), Piece::Element(number)) => parts.get(*number),
        _ => None,
    }
}
