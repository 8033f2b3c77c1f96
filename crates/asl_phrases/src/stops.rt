//! Where a path may stop, and why.

use crate::words::cut;
use asl_numbered::{NodeKinds, NodeObjects, Shapes};
use asl_path::{RefPath, Segment, print};
use asl_tree::{OutOfMemory, quoted};
use std::alloc::Global;

/// A value beyond which a path may name nothing.
#[derive(Drop)]
pub struct Stop {
    /// The number of its shape.
    pub shape: usize,
    /// The text of the path up to it, which is `$` for the whole.
    pub front: String,
    /// The text of the path up to what may be absent.
    pub absent: String,
    /// How many segments of the path end with the last one that may name nothing.
    pub many_unsure: usize,
    /// Why it may be absent, in words that go on behind the shape.
    pub why: String,
    /// Whether what may be absent is a field.
    pub is_field: bool,
    /// Whether the value may be anything.
    pub is_anything: bool,
    /// Whether a test by `IsPresent` makes sure that the path names something.
    pub is_narrowed: bool,
}

/// Where a path may stop that is looked up in a value of the shape of that number: behind its first `many` segments, since the
/// next one may name nothing. None where there is no next one, or where the shape doesn't mention what the first ones name.
/// Refuses only where an allocation was refused.
pub fn stop_of(
    alloc: Global,
    shapes: &Shapes,
    number: usize,
    path: &RefPath,
    many: usize,
) -> Result<Option<Stop>, OutOfMemory> {
    let (Some(segment), Some(shape)) = (
        path.segments().get(many),
        part_at(shapes, number, path, many),
    ) else {
        return Ok(None);
    };
    Ok(Some(Stop {
        shape,
        front: front_of(alloc, path, many)?,
        absent: front_of(alloc, path, many.saturating_add(1))?,
        many_unsure: many_unsure(shapes, number, path, many.saturating_add(1)),
        why: why_absent(alloc, shapes, shape, segment)?,
        is_field: matches!(segment, Segment::Name(_)),
        is_anything: shapes.take_apart(shape).is_none(),
        is_narrowed: is_narrowed(shapes, number, path),
    }))
}

/// How many segments of a path end with the last one that may name nothing in a value of the shape of that number, where the
/// last of the first `many` may.
fn many_unsure(shapes: &Shapes, number: usize, path: &RefPath, many: usize) -> usize {
    let mut end = many;
    for (place, segment) in path.segments().iter().enumerate().skip(many) {
        let part = part_at(shapes, number, path, place);
        if !part.is_some_and(|part| is_sure(shapes, part, segment)) {
            end = place.saturating_add(1);
        }
    }
    end
}

/// Whether a segment names something in each value of the shape of that number.
fn is_sure(shapes: &Shapes, number: usize, segment: &Segment) -> bool {
    let Some(kinds) = shapes.take_apart(number) else {
        return false;
    };
    if has_simple(&kinds) {
        return false;
    }
    match (segment, kinds.objects, kinds.arrays) {
        (Segment::Name(name), Some(objects), None) => {
            objects
                .fields
                .get(name.as_str())
                .is_some_and(|field| field.needed)
        }
        (Segment::Index(index), None, Some(lists)) => lists.first.len() > *index as usize,
        _ => false,
    }
}

/// The number of the shape of what the first `many` segments of a path name in a value of the shape of that number, where that
/// is mentioned. Takes no memory.
pub fn part_at(shapes: &Shapes, number: usize, path: &RefPath, many: usize) -> Option<usize> {
    let mut part = number;
    for segment in path.segments().iter().take(many) {
        part = part_of(shapes, part, segment)?;
    }
    Some(part)
}

/// The number of the shape of what a segment names in a value of that shape, where the shape mentions it.
fn part_of(shapes: &Shapes, number: usize, segment: &Segment) -> Option<usize> {
    let kinds = shapes.take_apart(number)?;
    match segment {
        Segment::Name(name) => Some(kinds.objects?.fields.get(name.as_str())?.shape),
        Segment::Index(index) => kinds.arrays?.first.get(*index as usize).copied(),
    }
}

/// Whether a test by `IsPresent` narrows a value of that shape so that the path is sure to name something: each segment goes
/// into an object or a list, and each but the last to a part that the shape mentions.
fn is_narrowed(shapes: &Shapes, number: usize, path: &RefPath) -> bool {
    let mut part = Some(number);
    for segment in path.segments() {
        let Some(number) = part else {
            return false;
        };
        if !goes_into(shapes, number, segment) {
            return false;
        }
        part = part_of(shapes, number, segment);
    }
    true
}

/// Whether `IsPresent` makes sure that a segment names something in a value of that shape.
fn goes_into(shapes: &Shapes, number: usize, segment: &Segment) -> bool {
    match segment {
        Segment::Name(_) => match shapes.take_apart(number) {
            Some(kinds) => kinds.objects.is_some(),
            None => false,
        },
        Segment::Index(_) => part_of(shapes, number, segment).is_some(),
    }
}

/// The text of the first `many` segments of a path, cut where it is long. Refuses only where an allocation was refused.
pub fn front_of(alloc: Global, path: &RefPath, many: usize) -> Result<String, OutOfMemory> {
    let mut text = String::from_str(alloc, "$")?;
    text.push_str(&stretch_of(alloc, path, 0, many)?)?;
    cut(alloc, &text)
}

/// The text of the segments of a path from the one of that number on, counted from 0, up to the first `many`. Refuses only
/// where an allocation was refused.
pub fn stretch_of(
    alloc: Global,
    path: &RefPath,
    first: usize,
    many: usize,
) -> Result<String, OutOfMemory> {
    let text = print(alloc, path)?;
    let (start, end) = (
        byte_behind(&text, path, first),
        byte_behind(&text, path, many),
    );
    Ok(String::from_str(alloc, text.get(start..end).unwrap_or(""))?)
}

/// The byte behind the first `many` segments of a path that is printed so.
fn byte_behind(text: &str, path: &RefPath, many: usize) -> usize {
    let mut end = 1;
    for segment in path.segments().iter().take(many) {
        end = end_of(text, end, segment);
    }
    end
}

/// The byte behind a segment that begins at that byte of a printed path.
fn end_of(text: &str, start: usize, segment: &Segment) -> usize {
    let length = match segment {
        Segment::Name(name) if text.as_bytes().get(start) == Some(&b'.') => {
            name.len().saturating_add(1)
        }
        // A name in brackets has a quote, too, on each side.
        Segment::Name(name) => name.len().saturating_add(4),
        Segment::Index(index) => digits_in(*index).saturating_add(2),
    };
    start.saturating_add(length)
}

/// How many digits the number has.
fn digits_in(number: u32) -> usize {
    let mut digits: usize = 1;
    let mut rest = number / 10;
    for _ in 0..10 {
        if rest == 0 {
            break;
        }
        rest /= 10;
        digits = digits.saturating_add(1);
    }
    digits
}

/// Why a segment may name nothing in a value of that shape.
fn why_absent(
    alloc: Global,
    shapes: &Shapes,
    number: usize,
    segment: &Segment,
) -> Result<String, OutOfMemory> {
    match (segment, shapes.take_apart(number)) {
        (Segment::Name(name), Some(kinds)) => why_no_field(alloc, &kinds, name),
        (Segment::Name(name), None) => {
            let name = quoted(alloc, name)?;
            Ok(format!(in alloc; ", and nothing says that it has a field {name}")?)
        }
        (Segment::Index(index), Some(kinds)) => why_no_element(alloc, shapes, &kinds, *index),
        (Segment::Index(index), None) => {
            Ok(format!(in alloc; ", and nothing says that it has an element [{index}]")?)
        }
    }
}

/// Why a field may be absent from a value of these kinds.
fn why_no_field(alloc: Global, kinds: &NodeKinds, name: &str) -> Result<String, OutOfMemory> {
    let told = quoted(alloc, name)?;
    match &kinds.objects {
        Some(_) if has_simple(kinds) || kinds.arrays.is_some() => {
            Ok(format!(in alloc; ", and only an object has a field {told}")?)
        }
        Some(objects) => why_not_in(alloc, objects, name, &told),
        None => Ok(format!(in alloc; ", which has no field {told}")?),
    }
}

/// Why a field may be absent from an object; `told` is its name as it is told.
fn why_not_in(
    alloc: Global,
    objects: &NodeObjects,
    name: &str,
    told: &str,
) -> Result<String, OutOfMemory> {
    match objects.fields.get(name) {
        Some(_) => Ok(format!(in alloc; ", where the field {told} may be absent")?),
        None if objects.extra => {
            Ok(format!(in alloc; ", and nothing says that it has a field {told}")?)
        }
        None => Ok(format!(in alloc; ", without a field {told}")?),
    }
}

/// Why an element may be absent from a value of these kinds.
fn why_no_element(
    alloc: Global,
    shapes: &Shapes,
    kinds: &NodeKinds,
    index: u32,
) -> Result<String, OutOfMemory> {
    match &kinds.arrays {
        Some(_) if has_simple(kinds) || kinds.objects.is_some() => {
            Ok(format!(in alloc; ", and only a list has an element [{index}]")?)
        }
        Some(lists) if shapes.inhabited(lists.rest) == Some(true) => {
            Ok(format!(in alloc; ", and the list may be too short for an element [{index}]")?)
        }
        Some(_) => Ok(format!(in alloc; ", and the list is too short for an element [{index}]")?),
        None => Ok(format!(in alloc; ", which has no element [{index}]")?),
    }
}

/// Whether there are values among these kinds that are neither lists nor objects.
fn has_simple(kinds: &NodeKinds) -> bool {
    kinds.null || kinds.boolean || kinds.integer || kinds.text
}
