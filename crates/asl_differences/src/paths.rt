//! Places in a tree, as paths.

use asl_path::{PathRefusal, parse, print};
use asl_tree::{OutOfMemory, quoted};
use std::alloc::Global;

/// A step into a tree.
#[derive(Clone, Copy, Drop)]
pub(crate) enum Step<'t> {
    /// Into the field of that name.
    Name(&'t str),
    /// To the element of that number, counted from 0.
    Index(usize),
}

/// The path of these steps, which stand from the innermost on, as [`asl_path::print`] prints it. A name that no path
/// spells stands as a JSON text in brackets.
pub(crate) fn path_text(alloc: Global, way: &[Step<'_>]) -> Result<String, OutOfMemory> {
    let mut text = String::from_str(alloc, "$")?;
    for step in way.iter().rev() {
        text.push_str(&step_text(alloc, *step)?)?;
    }
    match parse(alloc, &text) {
        Ok(path) => print(alloc, &path),
        Err(PathRefusal::OutOfMemory) => Err(OutOfMemory),
        Err(PathRefusal::NoDollar | PathRefusal::BadSegment(_) | PathRefusal::LeftOut(_)) => {
            Ok(text)
        }
    }
}

/// A step in brackets.
fn step_text(alloc: Global, step: Step<'_>) -> Result<String, OutOfMemory> {
    match step {
        Step::Index(index) => Ok(format!(in alloc; "[{index}]")?),
        Step::Name(name) if can_stand_between('\'', name) => Ok(format!(in alloc; "['{name}']")?),
        Step::Name(name) if can_stand_between('"', name) => Ok(format!(in alloc; "[\"{name}\"]")?),
        Step::Name(name) => {
            let name = quoted(alloc, name)?;
            Ok(format!(in alloc; "[{name}]")?)
        }
    }
}

/// Whether the name can stand between two of that quote in a path.
fn can_stand_between(quote: char, name: &str) -> bool {
    !name
        .chars()
        .any(|character| character == quote || character == '\\')
}
