//! The paths that stand in a value of a definition, in whichever spelling.
use crate::index::{push_elements, push_members};
use crate::sources::{text_at, text_from};
use crate::sure::sure_texts;
use crate::templates::SUFFIX;
use asl_intrinsic::{Arg, Call, CallRefusal, parse, parse_reference};
use asl_path::{RefPath, print};
use asl_places::{Outline, Spot};
use asl_tree::OutOfMemory;
use std::alloc::Global;
use std::collections::{BTreeMap, BTreeSet};

/// The paths in a value, each in its printed form, with the first text in which it stands and may name nothing. They are apart
/// by the name of the field of a template in which they stand; elsewhere than in a template it is empty.
#[derive(Drop)]
pub struct Paths {
    alloc: Global,
    by_name: BTreeMap<String, BTreeMap<String, Standing>>,
    /// The tokens of the texts of rules that tests in front of them make sure of.
    sure: BTreeSet<usize>,
}

/// Where a path stands.
#[derive(Clone, Copy)]
struct Standing {
    /// Whether a test in front of it makes sure of it.
    is_sure: bool,
    spot: Spot,
}

impl Paths {
    /// The paths in the value at a spot of an outlined text.
    pub fn read(
        alloc: Global,
        outline: &Outline<'_>,
        text: &[u8],
        value: Spot,
    ) -> Result<Paths, OutOfMemory> {
        let parts = values_within(alloc, outline, text.len(), value)?;
        let mut paths = Paths {
            alloc,
            by_name: BTreeMap::new(alloc),
            sure: sure_texts(alloc, outline, text, &parts)?,
        };
        paths.add(outline, text, "", value)?;
        for part in &parts {
            paths.add_members(outline, text, *part)?;
        }
        Ok(paths)
    }

    /// The first text in which the path stands under that name: one that no test in front of it in an `And` makes sure of,
    /// where there is one.
    pub fn first(&self, name: &str, path: &str) -> Option<Spot> {
        let standing = self.by_name.get(name)?.get(path)?;
        Some(standing.spot)
    }

    /// Adds the paths in the texts that are an object's own members. That of a test by `IsPresent` may always name nothing.
    fn add_members(
        &mut self,
        outline: &Outline<'_>,
        text: &[u8],
        object: Spot,
    ) -> Result<(), OutOfMemory> {
        let Some(mut members) = outline.members(object) else {
            return Ok(());
        };
        let is_test = outline.member(object, "IsPresent").is_some();
        while let Some((field, member)) = members.next() {
            if let Some(name) = name_of_paths(field) {
                if !is_test || field != "Variable" {
                    self.add(outline, text, name, member.value)?;
                }
            }
        }
        Ok(())
    }

    /// Adds the paths in a text, if one stands at the spot: that which it is, or those in the call that it is.
    fn add(
        &mut self,
        outline: &Outline<'_>,
        text: &[u8],
        name: &str,
        spot: Spot,
    ) -> Result<(), OutOfMemory> {
        let Some(said) = text_at(self.alloc, text_from(text, outline.offset(spot)))? else {
            return Ok(());
        };
        if let Some(reference) = parse_reference(self.alloc, &said, true)? {
            return self.add_argument(name, spot, &reference);
        }
        match parse(self.alloc, &said, true) {
            Ok(call) => self.add_call(name, spot, &call),
            Err(CallRefusal::OutOfMemory) => Err(OutOfMemory),
            Err(_) => Ok(()),
        }
    }

    /// Adds the paths among the arguments of a call.
    #[cycle(arguments)]
    fn add_call(&mut self, name: &str, spot: Spot, call: &Call) -> Result<(), OutOfMemory> {
        let arguments = match call {
            Call::Array(arguments) | Call::ArrayLength(arguments) | Call::Format(arguments) => {
                arguments
            }
        };
        for argument in arguments {
            self.add_argument(name, spot, argument)?;
        }
        Ok(())
    }

    /// Adds the path that an argument is, or those in the call that it is.
    #[cycle(arguments)]
    fn add_argument(&mut self, name: &str, spot: Spot, argument: &Arg) -> Result<(), OutOfMemory> {
        match argument {
            Arg::Path(path) | Arg::ItemValue(path) => self.put(name, spot, path),
            Arg::Call(call) => self.add_call(name, spot, call),
            Arg::Null | Arg::Bool(_) | Arg::Int(_) | Arg::Text(_) | Arg::ItemIndex => Ok(()),
        }
    }

    /// Puts a path that stands in the text at the spot.
    fn put(&mut self, name: &str, spot: Spot, path: &RefPath) -> Result<(), OutOfMemory> {
        let printed = print(self.alloc, path)?;
        let is_sure = self.sure.contains(&spot.token);
        let standing = Standing { is_sure, spot };
        if let Some(paths) = self.by_name.get_mut(name) {
            return put_first(paths, printed, standing);
        }
        let mut paths = BTreeMap::new(self.alloc);
        put_first(&mut paths, printed, standing)?;
        drop(
            self.by_name
                .insert(String::from_str(self.alloc, name)?, paths)?,
        );
        Ok(())
    }
}

/// Puts a path that stands there, unless it stands at a place that is told rather.
fn put_first(
    paths: &mut BTreeMap<String, Standing>,
    path: String,
    standing: Standing,
) -> Result<(), OutOfMemory> {
    let is_first = match paths.get(path.as_str()) {
        Some(other) => standing.is_in_front_of(*other),
        None => true,
    };
    if is_first {
        drop(paths.insert(path, standing)?);
    }
    Ok(())
}

impl Standing {
    /// Whether this place is told rather than another one: first those of which nothing makes sure, and of these the first.
    fn is_in_front_of(self, other: Standing) -> bool {
        match (self.is_sure, other.is_sure) {
            (false, true) => true,
            (true, false) => false,
            _ => self.spot.token < other.spot.token,
        }
    }
}

/// The name under which the paths in a member's text are told: that of a template's field, or the empty one of a rule's;
/// none where a text with that name is no path.
fn name_of_paths(field: &str) -> Option<&str> {
    match field.strip_suffix(SUFFIX) {
        Some(name) => Some(name),
        None => (field == "Variable" || field.ends_with("Path")).then_some(""),
    }
}

/// The value at a spot of an outlined text of so many bytes, and all that stand in it, at any depth.
pub fn values_within(
    alloc: Global,
    outline: &Outline<'_>,
    bytes: usize,
    value: Spot,
) -> Result<Vec<Spot>, OutOfMemory> {
    let mut values = Vec::new(alloc);
    values.push(value)?;
    // Each value has a byte of the text at least.
    for at in 0..bytes {
        let Some(value) = values.get(at).copied() else {
            break;
        };
        push_members(outline, value, &mut values)?;
        push_elements(outline, value, &mut values)?;
    }
    Ok(values)
}
