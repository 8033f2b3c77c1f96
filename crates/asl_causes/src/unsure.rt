//! What isn't sure of the data with which a rule of the certificate is broken, and which tests would make sure of it.

use crate::causes::Cause;
use crate::flows::Explainer;
use crate::sources::{Source, in_effective};
use crate::there::path_in;
use asl_check::FindingFault;
use asl_choice::ValueKind;
use asl_numbered::Shapes;
use asl_path::{PathRefusal, RefPath, Segment, parse, print};
use asl_phrases::{Lack, Piece, Stop, stop_of, stretch_of};
use asl_shape_paths::DoubtfulPath;
use asl_state_edges::{Broken, Step};
use asl_tree::OutOfMemory;
use std::alloc::Global;

/// Of which kinds values are: null, whole numbers, texts, truth values, lists, objects.
type Kinds = [bool; 6];

/// Lists alone.
const LISTS: Kinds = [false, false, false, false, true, false];

/// What isn't sure of a state's input, by the tests that would make sure of it.
#[derive(Drop)]
pub(crate) struct Unsure {
    /// The paths of which it is enough to know that they name something.
    pub(crate) present: Vec<String>,
    /// The value of which it may be enough to know the kind.
    pub(crate) kind: Option<UnsureKind>,
}

/// A value of which it isn't sure that it is of a kind that is wanted.
#[derive(Drop)]
pub(crate) struct UnsureKind {
    /// The path to it.
    pub(crate) path: String,
    is: Kinds,
    wanted: Kinds,
}

impl UnsureKind {
    /// Whether a test by that kind leaves only what is wanted, if it is to be true or if it is to be false.
    pub(crate) fn is_settled_by(&self, kind: ValueKind) -> bool {
        let place = place_of(kind);
        let is_left = self.is.get(place) == Some(&true) && self.wanted.get(place) == Some(&true);
        is_left || self.are_others_wanted(place)
    }

    /// Whether there are values of another kind than that of the number, and all such are wanted.
    fn are_others_wanted(&self, place: usize) -> bool {
        let mut has_some = false;
        for (number, (is, wanted)) in self.is.iter().zip(self.wanted.iter()).enumerate() {
            if *is && number != place {
                if !*wanted {
                    return false;
                }
                has_some = true;
            }
        }
        has_some
    }
}

impl<'m> Explainer<'m> {
    /// What isn't sure of the state's input, where a test could make sure of it.
    pub(crate) fn unsure_of(
        &self,
        shapes: &mut Shapes,
        cause: &Cause<'m>,
    ) -> Result<Option<Unsure>, OutOfMemory> {
        match &cause.step {
            Step::Breaks(broken) if self.goes_into_input(cause.state, broken.field) => {
                self.unsure_at(shapes, cause, broken)
            }
            Step::Breaks(_) => Ok(None),
            Step::Flows(_) => self.unsure_in_payload(shapes, cause),
        }
    }

    /// What isn't sure where a rule is broken at a path into the state's input.
    fn unsure_at(
        &self,
        shapes: &mut Shapes,
        cause: &Cause<'m>,
        broken: &Broken<'m>,
    ) -> Result<Option<Unsure>, OutOfMemory> {
        match (broken.fault, &broken.path) {
            (FindingFault::PathMayBeMissing, Some(path)) => self.unsure_on_path(shapes, path),
            (FindingFault::WrongKind, _) => self.unsure_delay(shapes, cause, broken.field),
            _ => Ok(None),
        }
    }

    /// What isn't sure where a path may name nothing.
    fn unsure_on_path(
        &self,
        shapes: &Shapes,
        path: &DoubtfulPath<'m>,
    ) -> Result<Option<Unsure>, OutOfMemory> {
        let alloc = self.alloc;
        match stop_of(alloc, shapes, path.shape, path.path, path.segment)? {
            Some(stop) if stop.is_field && !stop.is_anything => Ok(Some(Unsure {
                present: fronts_to_test(alloc, path.path, &stop)?,
                kind: kind_of_front(alloc, shapes, path, &stop)?,
            })),
            Some(_) | None => Ok(None),
        }
    }

    /// What isn't sure where what the path of a field names may be of another kind than is wanted.
    fn unsure_delay(
        &self,
        shapes: &mut Shapes,
        cause: &Cause,
        field: &str,
    ) -> Result<Option<Unsure>, OutOfMemory> {
        let Some(path) = self.machine.state(cause.state).and_then(path_in) else {
            return Ok(None);
        };
        let named = self.named_in_effective(shapes, cause.state, cause.input, path)?;
        let text = print(self.alloc, path)?;
        let is = named.and_then(|number| kinds_at(shapes, number));
        Ok(is.map(|is| of_kind(self.alloc, text, is, kinds_for(field))))
    }

    /// What isn't sure of a payload.
    fn unsure_in_payload(
        &self,
        shapes: &mut Shapes,
        cause: &Cause,
    ) -> Result<Option<Unsure>, OutOfMemory> {
        let Some(apart) = self.apart_of_payload(shapes, cause)? else {
            return Ok(None);
        };
        match (
            apart.lack,
            kinds_at(shapes, apart.inner),
            kinds_at(shapes, apart.outer),
        ) {
            (Lack::Kind, Some(is), Some(wanted)) => {
                let path = self.path_of_payload(cause.state, &apart.place)?;
                Ok(path.map(|path| of_kind(self.alloc, path, is, wanted)))
            }
            _ => Ok(None),
        }
    }

    /// The path in the state's input to what stands in its effective input at that place, where there is one.
    fn path_of_payload(
        &self,
        state: usize,
        place: &[Piece],
    ) -> Result<Option<String>, OutOfMemory> {
        let Some(state) = self.machine.state(state) else {
            return Ok(None);
        };
        let traced = in_effective(&state.settings, place, 0);
        let Source::Input = traced.source else {
            return Ok(None);
        };
        let mut text = String::from_str(self.alloc, "$")?;
        for front in [traced.input_path, traced.filled] {
            if let Some(front) = front {
                text.push_str(&stretch_of(self.alloc, front, 0, front.segments().len())?)?;
            }
        }
        push_pieces(
            self.alloc,
            &mut text,
            place.get(traced.dropped..).unwrap_or(&[]),
        )?;
        printed(self.alloc, &text)
    }
}

/// The text of the path that reads so, as paths are printed; none where there is no such path.
fn printed(alloc: Global, text: &str) -> Result<Option<String>, OutOfMemory> {
    match parse(alloc, text) {
        Ok(path) => Ok(Some(print(alloc, &path)?)),
        Err(PathRefusal::OutOfMemory) => Err(OutOfMemory),
        Err(_) => Ok(None),
    }
}

/// Puts the steps of a path behind its text; where there is no such step, what is no path.
fn push_pieces(alloc: Global, text: &mut String, pieces: &[Piece]) -> Result<(), OutOfMemory> {
    for piece in pieces {
        let step = match piece {
            Piece::Field(name) if name.as_bytes().contains(&b'\'') => {
                format!(in alloc; "[\"{name}\"]")?
            }
            Piece::Field(name) => format!(in alloc; "['{name}']")?,
            Piece::Element(number) => format!(in alloc; "[{number}]")?,
            Piece::Rest => String::from_str(alloc, "[..]")?,
        };
        text.push_str(&step)?;
    }
    Ok(())
}

/// That the kind of the value at a path isn't sure.
fn of_kind(alloc: Global, path: String, is: Kinds, wanted: Kinds) -> Unsure {
    Unsure {
        present: Vec::new(alloc),
        kind: Some(UnsureKind { path, is, wanted }),
    }
}

/// The fronts of a path with all that isn't sure of it, where a test by `IsPresent` does.
fn fronts_to_test(alloc: Global, path: &RefPath, stop: &Stop) -> Result<Vec<String>, OutOfMemory> {
    let mut fronts = Vec::new(alloc);
    let least = if stop.is_narrowed {
        stop.many_unsure
    } else {
        path.segments().len().saturating_add(1)
    };
    for many in least..=path.segments().len() {
        let mut front = String::from_str(alloc, "$")?;
        front.push_str(&stretch_of(alloc, path, 0, many)?)?;
        fronts.push(front)?;
    }
    Ok(fronts)
}

/// The value at the front of a path, where the path names something in each object that it may be.
fn kind_of_front(
    alloc: Global,
    shapes: &Shapes,
    path: &DoubtfulPath,
    stop: &Stop,
) -> Result<Option<UnsureKind>, OutOfMemory> {
    let is_last = stop.many_unsure == path.segment.saturating_add(1);
    match kinds_at(shapes, stop.shape) {
        Some(is) if is_last && is_sure_in_objects(shapes, path, stop) => {
            let mut front = String::from_str(alloc, "$")?;
            front.push_str(&stretch_of(alloc, path.path, 0, path.segment)?)?;
            Ok(Some(UnsureKind {
                path: front,
                is,
                wanted: [false, false, false, false, false, true],
            }))
        }
        Some(_) | None => Ok(None),
    }
}

/// Whether each object of the shape at which a path stops has the field.
fn is_sure_in_objects(shapes: &Shapes, path: &DoubtfulPath, stop: &Stop) -> bool {
    let objects = shapes
        .take_apart(stop.shape)
        .and_then(|kinds| kinds.objects);
    match (objects, path.path.segments().get(path.segment)) {
        (Some(objects), Some(Segment::Name(name))) => {
            objects
                .fields
                .get(name.as_str())
                .is_some_and(|field| field.needed)
        }
        _ => false,
    }
}

/// Of which kinds values of the shape of that number are; none where they may be anything.
fn kinds_at(shapes: &Shapes, number: usize) -> Option<Kinds> {
    let kinds = shapes.take_apart(number)?;
    Some([
        kinds.null,
        kinds.integer,
        kinds.text,
        kinds.boolean,
        kinds.arrays.is_some(),
        kinds.objects.is_some(),
    ])
}

/// The kinds that a field wants its path to name.
fn kinds_for(field: &str) -> Kinds {
    match field {
        "SecondsPath" => [false, true, false, false, false, false],
        "TimestampPath" => [false, false, true, false, false, false],
        _ => LISTS,
    }
}

/// The place of a kind among kinds.
fn place_of(kind: ValueKind) -> usize {
    match kind {
        ValueKind::Null => 0,
        ValueKind::Numeric => 1,
        ValueKind::String => 2,
        ValueKind::Boolean => 3,
    }
}
