//! From samples of data to the shape that they have in common, on standard output.

use asl_breaks::refused_at;
use asl_command_line::ShapeRequest;
use asl_files::{end, print_line, text_or_why};
use asl_places::Place;
use asl_samples::{opened, shape_of, shape_text};
use asl_shape::Shape;
use asl_tool::RunFault;
use asl_tree::{OutOfMemory, Tree, TreeRefusal, in_line, read};
use std::alloc::Global;
use std::rt::Files;

/// What was read of the samples so far.
#[derive(Drop)]
struct Samples {
    trees: Vec<Tree>,
    /// Lines for standard error, on what isn't taken.
    notes: String,
}

/// Writes the shape that the samples in files have in common to standard output, and gives the exit status. What can't be
/// read, or is no sample, is told on standard error, a line for each; then there is no shape.
pub(crate) fn shape_files<R: Files + Input + Print + Eprint + AllocGlobal>(
    rt: &R,
    request: &ShapeRequest<'_>,
) -> u8 {
    end(rt, shape_on(rt, request))
}

/// Writes the shape of the samples, or why there is none, and gives the exit status. There is a sample, since one at least
/// is asked for.
///
/// Refused: Write; OutOfMemory.
fn shape_on<R: Files + Input + Print + Eprint + AllocGlobal>(
    rt: &R,
    request: &ShapeRequest<'_>,
) -> Result<u8, RunFault> {
    let samples = samples_in(rt, &request.names)?;
    if !samples.notes.is_empty() {
        let _ = rt.eprint(&samples.notes);
        return Ok(2);
    }
    match shape_of(rt.alloc(), &samples.trees)? {
        Some(shape) => {
            let text = text_of(rt.alloc(), shape, request.is_open)?;
            print_line(rt, text)?;
            Ok(0)
        }
        None => Ok(2),
    }
}

/// The text of a shape, whose objects are opened where that is asked for.
fn text_of(alloc: Global, shape: Shape, is_open: bool) -> Result<String, OutOfMemory> {
    if is_open {
        shape_text(alloc, &opened(alloc, &shape)?)
    } else {
        shape_text(alloc, &shape)
    }
}

/// The samples in files, and notes on those that can't be read or are none.
fn samples_in<R: Files + Input + AllocGlobal>(
    rt: &R,
    names: &[&str],
) -> Result<Samples, OutOfMemory> {
    let mut samples = Samples {
        trees: Vec::new(rt.alloc()),
        notes: String::new(rt.alloc()),
    };
    for name in names {
        match text_or_why(rt, name) {
            Ok(text) => samples.add(rt.alloc(), name, &text)?,
            Err(why) => samples.note(rt.alloc(), name, &why.words(rt.alloc())?)?,
        }
    }
    Ok(samples)
}

impl Samples {
    /// Adds the sample that the text of a file is, or notes why it is none.
    fn add(&mut self, alloc: Global, name: &str, text: &[u8]) -> Result<(), OutOfMemory> {
        match read(alloc, text) {
            Ok(tree) => {
                self.trees.push(tree)?;
                Ok(())
            }
            Err(refusal) => self.note_refused(alloc, name, text, &refusal),
        }
    }

    /// Notes why the text of a file is no sample.
    ///
    /// Refused: OutOfMemory, also where that is the reason.
    fn note_refused(
        &mut self,
        alloc: Global,
        name: &str,
        text: &[u8],
        refusal: &TreeRefusal,
    ) -> Result<(), OutOfMemory> {
        let Some((place, words)) = refused_at(alloc, text, refusal)? else {
            return Err(OutOfMemory);
        };
        let Place { line, column } = place;
        let name = in_line(alloc, name)?;
        self.note(alloc, &format!(in alloc; "{name}:{line}:{column}")?, &words)
    }

    /// Notes why a file isn't taken.
    fn note(&mut self, alloc: Global, name: &str, why: &str) -> Result<(), OutOfMemory> {
        let name = in_line(alloc, name)?;
        write!(self.notes, "{name}: {why}\n")?;
        Ok(())
    }
}
