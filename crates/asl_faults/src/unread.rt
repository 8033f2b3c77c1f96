//! What is said of texts that aren't read as paths or as calls.
use crate::calls::{Fault, Part, Reading};
use asl_intrinsic::{Arg, CallRefusal, parse as parse_call, parse_reference};
use asl_path::{PathRefusal, parse as parse_path, print};
use asl_tree::{OutOfMemory, Tree};
use std::alloc::Global;

/// How a path into a Map's item begins.
const ITEM: &str = "$$.Map.Item";

/// How a path to what is in a Map's item begins.
const ITEM_VALUE: &str = "$$.Map.Item.Value";

/// What is said of a path into the context object.
const INTO_CONTEXT: &str = "goes into the context object, which isn't read here";

/// What is said of one where those to a Map's item are read.
const INTO_CONTEXT_OF_ITEM: &str =
    "goes into the context object, of which only `$$.Map.Item.Index` and `$$.Map.Item.Value`, with the path of a part behind it, are read here";

/// What is said of a path to a Map's item elsewhere.
const ITEM_ELSEWHERE: &str =
    "goes to the item of a Map, which is read in the `ItemSelector` of a Map alone";

/// What is said of a path with an operator.
const WITH_OPERATOR: &str =
    "has an operator of JSONPath, and only reference paths, which have none, are read here";

/// What is said of a text that isn't read as a path. Refuses only where an allocation was refused.
pub fn isnt_path(alloc: Global, text: &str) -> Result<&'static str, OutOfMemory> {
    if text.starts_with("$$") {
        return Ok(INTO_CONTEXT);
    }
    match parse_path(alloc, text) {
        Err(PathRefusal::OutOfMemory) => Err(OutOfMemory),
        Err(PathRefusal::LeftOut(_)) => Ok(WITH_OPERATOR),
        Ok(_) | Err(PathRefusal::NoDollar | PathRefusal::BadSegment(_)) => {
            Ok("is no reference path")
        }
    }
}

/// What is said of a value that isn't read as a path. Refuses only where an allocation was refused.
pub(crate) fn isnt_path_at(alloc: Global, value: &Tree) -> Result<&'static str, OutOfMemory> {
    match value {
        Tree::Text(text) => isnt_path(alloc, text),
        _ => Ok("is no reference path"),
    }
}

/// What is said of a text that isn't read as a path in a template; `item` says whether paths to a Map's item are read there.
/// Refuses only where an allocation was refused.
pub fn isnt_reference(alloc: Global, text: &str, item: bool) -> Result<&'static str, OutOfMemory> {
    match text.strip_prefix(ITEM_VALUE) {
        Some(part) if item => isnt_part_of_item(alloc, part),
        _ if !text.starts_with("$$") => isnt_path(alloc, text),
        _ if item => Ok(INTO_CONTEXT_OF_ITEM),
        _ if text.starts_with(ITEM) => Ok(ITEM_ELSEWHERE),
        _ => Ok(INTO_CONTEXT),
    }
}

/// What is said of a path to a Map's item that goes on so and isn't read.
fn isnt_part_of_item(alloc: Global, part: &str) -> Result<&'static str, OutOfMemory> {
    if !part.starts_with('.') && !part.starts_with('[') {
        return Ok(INTO_CONTEXT_OF_ITEM);
    }
    let path = format!(in alloc; "${part}")?;
    isnt_path(alloc, &path)
}

/// What is said of a text that isn't read as a call of an intrinsic function; `item` says whether paths to a Map's item are
/// read in it. Refuses only where an allocation was refused.
pub fn isnt_call(alloc: Global, text: &str, item: bool) -> Result<String, OutOfMemory> {
    match parse_call(alloc, text, item) {
        Err(CallRefusal::OutOfMemory) => Err(OutOfMemory),
        Err(CallRefusal::UnknownFunction) => Ok(String::from_str(
            alloc,
            "calls another function than `States.Array`, `States.ArrayLength` and `States.Format`, which alone are read here",
        )?),
        Err(CallRefusal::BadPath) => about_argument(alloc, text, item),
        Ok(_) | Err(CallRefusal::Malformed) => about_fault(alloc, text),
    }
}

/// What is said of a text that isn't written as a call.
fn about_fault(alloc: Global, text: &str) -> Result<String, OutOfMemory> {
    let Some(fault) = first_fault(text) else {
        return Ok(String::from_str(alloc, "isn't read as a call of an intrinsic function")?);
    };
    let place = character_of(text, fault.byte);
    match fault.wrong.words() {
        (before, Some(behind)) => Ok(format!(in alloc; "{before}{place}{behind}")?),
        (sentence, None) => Ok(String::from_str(alloc, sentence)?),
    }
}

/// The first thing that is wrong with how a call is written, if anything is.
fn first_fault(text: &str) -> Option<Fault> {
    let mut reading = Reading::new(text);
    // Each part but the last has a byte at least.
    for _ in 0..=text.len() {
        match reading.next_part() {
            Part::Fault(fault) => return Some(fault),
            Part::End => return None,
            Part::Path(..) | Part::Other => {}
        }
    }
    None
}

/// What is said of a call in which a path isn't read: of the first one.
fn about_argument(alloc: Global, text: &str, item: bool) -> Result<String, OutOfMemory> {
    let mut reading = Reading::new(text);
    for _ in 0..=text.len() {
        match reading.next_part() {
            Part::Path(from, to) => {
                let path = text.get(from..to).unwrap_or("");
                if parse_reference(alloc, path, item)?.is_none() {
                    let isnt = isnt_reference(alloc, path, item)?;
                    let place = character_of(text, from);
                    return Ok(format!(in alloc;
                        "has an argument at character {place} that {isnt}"
                    )?);
                }
            }
            Part::Other => {}
            Part::Fault(_) | Part::End => break,
        }
    }
    Ok(String::from_str(alloc, "has an argument that isn't read as a reference path")?)
}

/// Whether a path, as it is printed, stands in a text as one into a Map's item and not as one into the input. The text is a
/// path or a call. Refuses only where an allocation was refused.
pub fn goes_into_item(alloc: Global, text: &str, path: &str) -> Result<bool, OutOfMemory> {
    if text.starts_with('$') {
        return Ok(stands_as(alloc, text, path)? == Some(true));
    }
    let mut into_item = false;
    let mut reading = Reading::new(text);
    for _ in 0..=text.len() {
        match reading.next_part() {
            Part::Path(from, to) => match stands_as(
                alloc,
                text.get(from..to).unwrap_or(""),
                path,
            )? {
                Some(true) => into_item = true,
                Some(false) => return Ok(false),
                None => {}
            },
            Part::Other => {}
            Part::Fault(_) | Part::End => break,
        }
    }
    Ok(into_item)
}

/// Whether a text says that path as one into a Map's item; none where it doesn't say it.
fn stands_as(alloc: Global, text: &str, path: &str) -> Result<Option<bool>, OutOfMemory> {
    let (said, is_of_item) = match parse_reference(alloc, text, true)? {
        Some(Arg::Path(said)) => (said, false),
        Some(Arg::ItemValue(said)) => (said, true),
        _ => return Ok(None),
    };
    let printed = print(alloc, &said)?;
    Ok((printed.as_str() == path).then_some(is_of_item))
}

/// Which of the text's characters begins at that byte, counted from 1.
fn character_of(text: &str, byte: usize) -> usize {
    let mut number: usize = 1;
    for (at, _) in text.char_indices() {
        if at >= byte {
            return number;
        }
        number = number.saturating_add(1);
    }
    number
}
