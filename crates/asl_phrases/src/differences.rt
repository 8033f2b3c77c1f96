//! Where one shape isn't within another.

use crate::words::noted;
use asl_numbered::{NodeArrays, NodeKinds, NodeObjects, Shapes};
use asl_tree::{OutOfMemory, quoted};
use std::alloc::Global;

/// How many levels are gone down to the place.
const MOST_LEVELS: usize = 64;

/// How a place in a value is reached from the value around it.
#[derive(Drop)]
pub enum Piece {
    /// By the field of that name.
    Field(String),
    /// By the element of that number, counted from 0.
    Element(usize),
    /// By any element behind the first ones.
    Rest,
}

/// A part of two shapes: a field or an element.
#[derive(Drop)]
struct Part {
    piece: Piece,
    /// The number of its shape in the first.
    inner: usize,
    /// The number of its shape in the second.
    outer: usize,
}

/// How a value of one shape may lack another.
#[derive(Clone, Copy, Drop)]
pub enum Lack {
    /// A field may be absent.
    Absent,
    /// A field may be there that isn't taken.
    Surplus,
    /// It may be of another kind, where a test by kind tells it from what is wanted.
    Kind,
    /// It may be of another kind, or a list of another length.
    Other,
}

/// Where a value of one shape may lack another.
#[derive(Drop)]
pub struct Apart {
    /// The place as a path, and what may be so there.
    pub text: String,
    /// How the value may lack the other shape there.
    pub lack: Lack,
    /// How the place is reached.
    pub place: Vec<Piece>,
    /// The number of the value's shape there.
    pub inner: usize,
    /// The number of the shape that is wanted there.
    pub outer: usize,
}

/// What a value may lack of a shape on its first level: in words, and how.
type Lacking = (String, Lack);

/// In words where a value of the shape of the first number may lack the second shape, and what is wanted there: the first such
/// place, as far as 64 levels down. `who` is what wants the second shape. The table has the same shapes as before; it remembers
/// which of them are inside others. Refuses only where an allocation was refused.
pub fn difference(
    alloc: Global,
    shapes: &mut Shapes,
    inner: usize,
    outer: usize,
    who: &str,
) -> Result<Apart, OutOfMemory> {
    let mut apart = Apart {
        text: String::from_str(alloc, "$")?,
        lack: Lack::Other,
        place: Vec::new(alloc),
        inner,
        outer,
    };
    let (told, lack) = lack_below(alloc, shapes, &mut apart, who)?;
    apart.text.push_str(&told)?;
    apart.lack = lack;
    Ok(apart)
}

/// What a value of the first shape may lack of the second on the first level where it may lack something; the pieces down to
/// there are put behind the place.
fn lack_below(
    alloc: Global,
    shapes: &mut Shapes,
    apart: &mut Apart,
    who: &str,
) -> Result<Lacking, OutOfMemory> {
    for _ in 0..MOST_LEVELS {
        if let Some(told) = lack_between(alloc, shapes, apart.inner, apart.outer, who)? {
            return Ok(told);
        }
        let Some(part) = part_apart(alloc, shapes, apart.inner, apart.outer)? else {
            break;
        };
        go_to(alloc, apart, part)?;
    }
    unnamed_lack(alloc, shapes, apart.outer, who)
}

/// Goes down to a part.
fn go_to(alloc: Global, apart: &mut Apart, part: Part) -> Result<(), OutOfMemory> {
    apart.text.push_str(&step_to(alloc, &part.piece)?)?;
    apart.place.push(part.piece)?;
    apart.inner = part.inner;
    apart.outer = part.outer;
    Ok(())
}

/// That a value may not be what is wanted, where it isn't known what it lacks.
fn unnamed_lack(
    alloc: Global,
    shapes: &Shapes,
    outer: usize,
    who: &str,
) -> Result<Lacking, OutOfMemory> {
    let wanted = noted(alloc, shapes, outer)?;
    let told = format!(in alloc; " may not be what {who} wants, {wanted}")?;
    Ok((told, Lack::Other))
}

/// What a value of the first shape may lack of the second on its first level, if it may lack something there.
fn lack_between(
    alloc: Global,
    shapes: &Shapes,
    inner: usize,
    outer: usize,
    who: &str,
) -> Result<Option<Lacking>, OutOfMemory> {
    let Some(wanted) = shapes.take_apart(outer) else {
        return Ok(None);
    };
    match shapes.take_apart(inner) {
        Some(kinds) if has_other_kind(&kinds, &wanted) => {
            let told = other_kind(alloc, shapes, inner, outer, who)?;
            Ok(Some((told, lack_of_kind(&kinds, &wanted))))
        }
        None => {
            let told = other_kind(alloc, shapes, inner, outer, who)?;
            Ok(Some((told, Lack::Other)))
        }
        Some(kinds) => lack_of_parts(alloc, shapes, &kinds, &wanted, who),
    }
}

/// Whether there are values of the first kinds that are of none of the second.
fn has_other_kind(kinds: &NodeKinds, wanted: &NodeKinds) -> bool {
    kinds.null && !wanted.null
        || kinds.boolean && !wanted.boolean
        || kinds.integer && !wanted.integer
        || kinds.text && !wanted.text
        || kinds.arrays.is_some() && wanted.arrays.is_none()
        || kinds.objects.is_some() && wanted.objects.is_none()
}

/// That a value may be of another kind.
fn other_kind(
    alloc: Global,
    shapes: &Shapes,
    inner: usize,
    outer: usize,
    who: &str,
) -> Result<String, OutOfMemory> {
    let is = noted(alloc, shapes, inner)?;
    let wanted = noted(alloc, shapes, outer)?;
    Ok(format!(in alloc; " is {is}, and {who} takes {wanted}")?)
}

/// How a value of the first kinds, which may be of none of the second, lacks these: whether `IsNull`, `IsNumeric`, `IsString`
/// or `IsBoolean` leaves some of it, and only such as is of them.
fn lack_of_kind(kinds: &NodeKinds, wanted: &NodeKinds) -> Lack {
    let simple = [
        (kinds.null, wanted.null),
        (kinds.boolean, wanted.boolean),
        (kinds.integer, wanted.integer),
        (kinds.text, wanted.text),
    ];
    let is_shared = simple.iter().any(|kind| kind.0 && kind.1);
    let others = simple.iter().filter(|kind| kind.0 && !kind.1).count();
    if is_shared || others == 1 && are_compounds_taken(kinds, wanted) {
        Lack::Kind
    } else {
        Lack::Other
    }
}

/// Whether there are lists or objects among the first kinds, and each of the two is among the second, too.
fn are_compounds_taken(kinds: &NodeKinds, wanted: &NodeKinds) -> bool {
    let (lists, objects) = (kinds.arrays.is_some(), kinds.objects.is_some());
    (lists || objects)
        && (!lists || wanted.arrays.is_some())
        && (!objects || wanted.objects.is_some())
}

/// What lists or objects may lack on their first level.
fn lack_of_parts(
    alloc: Global,
    shapes: &Shapes,
    kinds: &NodeKinds,
    wanted: &NodeKinds,
    who: &str,
) -> Result<Option<Lacking>, OutOfMemory> {
    if let (Some(objects), Some(others)) = (&kinds.objects, &wanted.objects) {
        if let Some(lack) = lack_of_object(alloc, shapes, objects, others, who)? {
            return Ok(Some(lack));
        }
    }
    match (&kinds.arrays, &wanted.arrays) {
        (Some(lists), Some(others)) => lack_of_list(alloc, shapes, lists, others, who),
        _ => Ok(None),
    }
}

/// What an object may lack on its first level.
fn lack_of_object(
    alloc: Global,
    shapes: &Shapes,
    objects: &NodeObjects,
    wanted: &NodeObjects,
    who: &str,
) -> Result<Option<Lacking>, OutOfMemory> {
    match absent_field(alloc, objects, wanted, who)? {
        Some(lack) => Ok(Some(lack)),
        None if wanted.extra => Ok(None),
        None => surplus_of_object(alloc, shapes, objects, wanted, who),
    }
}

/// What an object may have on its first level that isn't taken, where no other fields are taken.
fn surplus_of_object(
    alloc: Global,
    shapes: &Shapes,
    objects: &NodeObjects,
    wanted: &NodeObjects,
    who: &str,
) -> Result<Option<Lacking>, OutOfMemory> {
    match unwanted_field(alloc, shapes, objects, wanted, who)? {
        Some(lack) => Ok(Some(lack)),
        None if objects.extra => {
            let told = format!(in alloc; " may have other fields, and {who} takes none")?;
            Ok(Some((told, Lack::Surplus)))
        }
        None => Ok(None),
    }
}

/// The first field that is wanted and may be absent.
fn absent_field(
    alloc: Global,
    objects: &NodeObjects,
    wanted: &NodeObjects,
    who: &str,
) -> Result<Option<Lacking>, OutOfMemory> {
    for (name, field) in wanted.fields.iter() {
        if field.needed && !is_sure(objects, name) {
            let name = quoted(alloc, name)?;
            let told = format!(in alloc; " may have no field {name}, and {who} needs it")?;
            return Ok(Some((told, Lack::Absent)));
        }
    }
    Ok(None)
}

/// Whether each of the objects has the field.
fn is_sure(objects: &NodeObjects, name: &str) -> bool {
    match objects.fields.get(name) {
        Some(field) => field.needed,
        None => false,
    }
}

/// The first field that may be there and isn't taken.
fn unwanted_field(
    alloc: Global,
    shapes: &Shapes,
    objects: &NodeObjects,
    wanted: &NodeObjects,
    who: &str,
) -> Result<Option<Lacking>, OutOfMemory> {
    for (name, field) in objects.fields.iter() {
        if wanted.fields.get(name.as_str()).is_none()
            && shapes.inhabited(field.shape) == Some(true)
        {
            let name = quoted(alloc, name)?;
            let told = format!(in alloc;
                " may have a field {name}, and {who} takes none of that name"
            )?;
            return Ok(Some((told, Lack::Surplus)));
        }
    }
    Ok(None)
}

/// What a list may lack in length.
fn lack_of_list(
    alloc: Global,
    shapes: &Shapes,
    lists: &NodeArrays,
    wanted: &NodeArrays,
    who: &str,
) -> Result<Option<Lacking>, OutOfMemory> {
    let many = wanted.first.len();
    if lists.first.len() < many {
        let told = format!(in alloc; " may have fewer than {many} elements, and {who} needs them")?;
        return Ok(Some((told, Lack::Other)));
    }
    let may_be_longer = lists.first.len() > many || shapes.inhabited(lists.rest) == Some(true);
    if may_be_longer && shapes.inhabited(wanted.rest) == Some(false) {
        let told = format!(in alloc;
            " may have more than {many} elements, and {who} takes no more"
        )?;
        return Ok(Some((told, Lack::Other)));
    }
    Ok(None)
}

/// The first part of which both shapes say something and whose first shape isn't within its second.
fn part_apart(
    alloc: Global,
    shapes: &mut Shapes,
    inner: usize,
    outer: usize,
) -> Result<Option<Part>, OutOfMemory> {
    let parts = parts_between(alloc, shapes, inner, outer)?;
    first_apart(shapes, parts)
}

/// The parts of which both shapes say something.
fn parts_between(
    alloc: Global,
    shapes: &Shapes,
    inner: usize,
    outer: usize,
) -> Result<Vec<Part>, OutOfMemory> {
    let mut parts = Vec::new(alloc);
    let (Some(kinds), Some(wanted)) = (shapes.take_apart(inner), shapes.take_apart(outer)) else {
        return Ok(parts);
    };
    if let (Some(objects), Some(others)) = (&kinds.objects, &wanted.objects) {
        push_fields(alloc, &mut parts, objects, others)?;
    }
    if let (Some(lists), Some(others)) = (&kinds.arrays, &wanted.arrays) {
        push_elements(&mut parts, lists, others)?;
    }
    Ok(parts)
}

/// Adds the fields that both mention.
fn push_fields(
    alloc: Global,
    parts: &mut Vec<Part>,
    objects: &NodeObjects,
    wanted: &NodeObjects,
) -> Result<(), OutOfMemory> {
    for (name, field) in objects.fields.iter() {
        if let Some(other) = wanted.fields.get(name.as_str()) {
            parts.push(Part {
                piece: Piece::Field(String::from_str(alloc, name)?),
                inner: field.shape,
                outer: other.shape,
            })?;
        }
    }
    Ok(())
}

/// How a path is told to go on by a piece.
fn step_to(alloc: Global, piece: &Piece) -> Result<String, OutOfMemory> {
    match piece {
        Piece::Field(name) => step_to_field(alloc, name),
        Piece::Element(number) => Ok(format!(in alloc; "[{number}]")?),
        Piece::Rest => Ok(String::from_str(alloc, "[..]")?),
    }
}

/// How a path is told to go on to a field: behind a dot where the name is a word.
fn step_to_field(alloc: Global, name: &str) -> Result<String, OutOfMemory> {
    if !name.is_empty() && name.bytes().all(is_in_word) {
        return Ok(format!(in alloc; ".{name}")?);
    }
    let told = quoted(alloc, name)?;
    Ok(format!(in alloc; "[{told}]")?)
}

/// Whether the byte may stand in a word.
fn is_in_word(byte: u8) -> bool {
    byte.is_ascii_alphanumeric() || byte == b'_'
}

/// Adds the elements at each place, and those behind.
fn push_elements(
    parts: &mut Vec<Part>,
    lists: &NodeArrays,
    wanted: &NodeArrays,
) -> Result<(), OutOfMemory> {
    for (place, inner) in lists.first.iter().enumerate() {
        let outer = wanted.first.get(place).copied().unwrap_or(wanted.rest);
        parts.push(Part {
            piece: Piece::Element(place),
            inner: *inner,
            outer,
        })?;
    }
    parts.push(Part {
        piece: Piece::Rest,
        inner: lists.rest,
        outer: wanted.rest,
    })?;
    Ok(())
}

/// The first part whose first shape isn't within its second.
fn first_apart(shapes: &mut Shapes, parts: Vec<Part>) -> Result<Option<Part>, OutOfMemory> {
    for part in parts {
        if shapes.sub(part.inner, part.outer)? == Some(false) {
            return Ok(Some(part));
        }
    }
    Ok(None)
}
