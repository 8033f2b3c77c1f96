//! Places in a file, as they are told to people.

use crate::refusals::{SuiteFault, SuiteRefusal};
use asl_tree::{OutOfMemory, quoted};
use std::alloc::Global;

/// A place in a JSON value, by the way to it.
#[derive(Clone, Copy, Drop)]
pub(crate) enum Place<'a> {
    /// The whole value.
    Whole,
    /// The place to which that is the way.
    Told(&'a str),
    /// The field of that name of the object at that place.
    Field(&'a Place<'a>, &'a str),
    /// The element of that number of the list at that place.
    Element(&'a Place<'a>, usize),
}

impl Place<'_> {
    /// The refusal for something wrong here.
    pub(crate) fn refusal(&self, alloc: Global, fault: SuiteFault) -> SuiteRefusal {
        match self.text(alloc) {
            Ok(place) => SuiteRefusal::Wrong { place, fault },
            Err(OutOfMemory) => SuiteRefusal::OutOfMemory,
        }
    }

    /// The way to the place; nothing for the whole value. Refuses only where an allocation was refused.
    pub(crate) fn text(&self, alloc: Global) -> Result<String, OutOfMemory> {
        let mut text = String::new(alloc);
        push_place(alloc, &mut text, self)?;
        Ok(text)
    }
}

/// Puts the way to the place behind the text.
fn push_place(alloc: Global, text: &mut String, place: &Place<'_>) -> Result<(), OutOfMemory> {
    match place {
        Place::Whole => Ok(()),
        Place::Told(way) => Ok(text.push_str(way)?),
        Place::Field(above, name) => {
            push_place(alloc, text, above)?;
            push_field(alloc, text, name)
        }
        Place::Element(above, number) => {
            push_place(alloc, text, above)?;
            text.push_str(&format!(in alloc; "[{number}]")?)?;
            Ok(())
        }
    }
}

/// Puts the name of a field behind the text; a name that is no word stands in quotes.
fn push_field(alloc: Global, text: &mut String, name: &str) -> Result<(), OutOfMemory> {
    if !text.is_empty() {
        text.push_str(".")?;
    }
    if is_word(name) {
        text.push_str(name)?;
    } else {
        text.push_str(&quoted(alloc, name)?)?;
    }
    Ok(())
}

/// Whether the name is made of letters, digits and `_`, and begins with no digit.
fn is_word(name: &str) -> bool {
    let bytes = name.as_bytes();
    match bytes.first() {
        Some(first) => {
            !first.is_ascii_digit()
                && bytes
                    .iter()
                    .all(|byte| byte.is_ascii_alphanumeric() || *byte == b'_')
        }
        None => false,
    }
}
