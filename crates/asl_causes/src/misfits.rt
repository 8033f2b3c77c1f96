//! Where a result may not fit.

use crate::causes::Cause;
use crate::flows::Explainer;
use asl_numbered::Shapes;
use asl_path::{RefPath, Segment};
use asl_phrases::{counted, front_of, noted, part_at};
use asl_shape::Shape;
use asl_shape_paths::{PutRefusal, put_at};
use asl_states::Settings;
use asl_tree::{OutOfMemory, quoted};
use std::alloc::Global;

/// A path at which what is placed may not fit, and the number of the segment where that is so.
#[derive(Clone, Copy, Drop)]
struct Misfit<'m> {
    path: &'m RefPath,
    segment: usize,
    /// Of a catcher's path its number, counted from 0.
    catcher: Option<usize>,
}

impl<'m> Explainer<'m> {
    /// Where what is placed at the path of that field may not fit, in words; none where it fits.
    pub(crate) fn misfit_text(
        &self,
        shapes: &mut Shapes,
        cause: &Cause,
        field: &str,
    ) -> Result<Option<String>, OutOfMemory> {
        let Some(state) = self.machine.state(cause.state) else {
            return Ok(None);
        };
        match self.misfit_of(shapes, &state.settings, cause.input, field)? {
            Some(misfit) => Ok(Some(misfit_words(self.alloc, shapes, cause.input, &misfit)?)),
            None => Ok(None),
        }
    }

    /// Where any value may not fit at the path of that field in an input of that number.
    fn misfit_of(
        &self,
        shapes: &mut Shapes,
        settings: &'m Settings,
        input: usize,
        field: &str,
    ) -> Result<Option<Misfit<'m>>, OutOfMemory> {
        let any = shapes.add(&Shape::Any)?;
        if shapes.inhabited(input) != Some(true) {
            return Ok(None);
        }
        match field {
            "Catch" => self.caught_misfit(shapes, settings, input, any),
            _ => self.misfit_at(shapes, &settings.result_path, input, any),
        }
    }

    /// The first catcher whose path may not fit an input of that number.
    fn caught_misfit(
        &self,
        shapes: &mut Shapes,
        settings: &'m Settings,
        input: usize,
        placed: usize,
    ) -> Result<Option<Misfit<'m>>, OutOfMemory> {
        for (number, catcher) in settings.catchers.iter().enumerate() {
            let misfit = self.misfit_at(shapes, &catcher.result_path, input, placed)?;
            if let Some(misfit) = misfit {
                return Ok(Some(Misfit {
                    catcher: Some(number),
                    ..misfit
                }));
            }
        }
        Ok(None)
    }

    /// Where a value may not fit at a path in an input of that number.
    fn misfit_at(
        &self,
        shapes: &mut Shapes,
        path: &'m Option<RefPath>,
        input: usize,
        placed: usize,
    ) -> Result<Option<Misfit<'m>>, OutOfMemory> {
        let Some(path) = path else {
            return Ok(None);
        };
        if input >= shapes.len() || placed >= shapes.len() {
            return Ok(None);
        }
        match put_at(self.alloc, shapes, input, path, placed) {
            Ok(_) => Ok(None),
            Err(PutRefusal::MayNotFit(segment)) => Ok(Some(Misfit {
                path,
                segment,
                catcher: None,
            })),
            Err(PutRefusal::OutOfMemory) => Err(OutOfMemory),
        }
    }
}

/// Where a value may not fit, and why.
fn misfit_words(
    alloc: Global,
    shapes: &Shapes,
    input: usize,
    misfit: &Misfit,
) -> Result<String, OutOfMemory> {
    let value = words_on_value(alloc, shapes, input, misfit)?;
    let path = words_on_path(alloc, misfit)?;
    Ok(format!(in alloc; "{value}; {path}")?)
}

/// The value into which what is placed may not fit, and why.
fn words_on_value(
    alloc: Global,
    shapes: &Shapes,
    input: usize,
    misfit: &Misfit,
) -> Result<String, OutOfMemory> {
    let (path, segment) = (misfit.path, misfit.segment);
    let value = named_value(alloc, path, segment)?;
    let is = noted_part(alloc, shapes, part_at(shapes, input, path, segment))?;
    let why = why_misfit(alloc, path.segments().get(segment))?;
    Ok(format!(in alloc; "{value} is {is}{why}")?)
}

/// What the first segments of a path name in the input.
fn named_value(alloc: Global, path: &RefPath, many: usize) -> Result<String, OutOfMemory> {
    match many {
        0 => Ok(String::from_str(alloc, "the input")?),
        many => front_of(alloc, path, many),
    }
}

/// The shape of that number in short notation; of a part that isn't mentioned, that it may be anything.
fn noted_part(
    alloc: Global,
    shapes: &Shapes,
    number: Option<usize>,
) -> Result<String, OutOfMemory> {
    match number {
        Some(number) => noted(alloc, shapes, number),
        None => Ok(String::from_str(alloc, "any")?),
    }
}

/// What a segment needs to fit; nothing where there is none.
fn why_misfit(alloc: Global, segment: Option<&Segment>) -> Result<String, OutOfMemory> {
    match segment {
        Some(Segment::Name(name)) => {
            let name = quoted(alloc, name)?;
            Ok(format!(in alloc; ", and only an object takes a field {name}")?)
        }
        Some(Segment::Index(index)) => Ok(format!(in alloc;
            ", and only a list that is long enough takes an element [{index}]"
        )?),
        None => Ok(String::new(alloc)),
    }
}

/// The path at which something is placed, and whose it is.
fn words_on_path(alloc: Global, misfit: &Misfit) -> Result<String, OutOfMemory> {
    let path = front_of(alloc, misfit.path, misfit.path.segments().len())?;
    match misfit.catcher {
        Some(catcher) => {
            let catcher = counted(alloc, catcher)?;
            Ok(format!(in alloc; "the ResultPath of catcher {catcher} is {path}")?)
        }
        None => Ok(format!(in alloc; "ResultPath is {path}")?),
    }
}
