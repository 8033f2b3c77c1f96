//! The version of a certificate's text.

ghost use Rattle.std.specs.Prelude.{◌≡◌, pos, IfOk, false, if◌then◌else◌, map, option_map};
ghost use Rattle.std.specs.List.{list_any};
ghost use Rattle.std.specs.Option.{unwrap_or};
ghost use Rattle.asl_model.specs.Shape.{has_several};
ghost use Rattle.asl_model.specs.Written.{certificate_has_several, state_has_several, version_of};
ghost use Rattle.asl_numbered.specs.Expansion.{shape_at};
ghost use Rattle.asl_records.specs.Numbered.{numbered_entries, numbered_view, numbers_view};
ghost use Rattle.asl_records.specs.View.{certificate_view};

use crate::numbering::number_certificate;
use crate::records::{Certificate, NumberedCertificate, StateNumbers};
use asl_numbered::Shapes;
use asl_tree::OutOfMemory;
use std::alloc::Global;
use std::collections::BTreeMap;

impl Certificate {
    /// The version of its text: 2 where a shape in it is of several kinds, or has one inside it that is; else 1.
    ///
    /// Refuses only where an allocation was refused.
    pub fn version(&self, alloc: Global) -> Result<i64, OutOfMemory>
        ensures version { IfOk result
            (λ version. version ≡ pos (version_of (certificate_view self.now))) }
    {
        Ok(version_number(self.has_several(alloc)?))
    }

    /// Whether a shape in it is of several kinds, or has one inside it that is.
    pub(crate) fn has_several(&self, alloc: Global) -> Result<bool, OutOfMemory>
        ensures several { IfOk result
            (λ several. several ≡ certificate_has_several (certificate_view self.now)) }
    {
        let numbered = number_certificate(alloc, self)?;
        Ok(numbered.has_several())
    }
}

impl NumberedCertificate {
    /// The version of its text: 2 where a shape in it is of several kinds, or has one inside it that is; else 1. Other
    /// shapes of the table don't count. Takes no memory.
    pub fn version(&self) -> i64
        ensures version { result ≡ pos (version_of (numbered_view self.now)) }
    {
        version_number(self.has_several())
    }

    /// Whether a shape in it is of several kinds, or has one inside it that is.
    pub(crate) fn has_several(&self) -> bool
        ensures several { result ≡ certificate_has_several (numbered_view self.now) }
    {
        is_with_several(&self.shapes, self.output) || states_are(&self.shapes, &self.states)
    }
}

/// The version of a text with shapes of several kinds, or without.
fn version_number(several: bool) -> i64
    ensures { result ≡ pos (if several then 2 else 1) }
{
    if several { 2 } else { 1 }
}

/// Whether one of the states has such a shape.
fn states_are(shapes: &Shapes, states: &BTreeMap<String, StateNumbers>) -> bool
    ensures { result ≡ list_any (λ entry. state_has_several entry.1)
        (numbered_entries shapes.now states.now.entries) }
{
    for (_, state) in states.iter() {
        if state_is(shapes, state) {
            return true;
        }
    }
    false
}

/// Whether one of a state's shapes is such.
fn state_is(shapes: &Shapes, state: &StateNumbers) -> bool
    ensures { result ≡ state_has_several (numbers_view shapes.now state.now) }
{
    is_with_several(shapes, state.input)
        || is_with_several(shapes, state.output)
        || some_are(shapes, &state.branches)
        || item_is(shapes, state.item)
}

/// Whether one of the shapes is such.
fn some_are(shapes: &Shapes, numbers: &[usize]) -> bool
    ensures { result ≡ list_any has_several (map (shape_at shapes.now) numbers.now) }
{
    for number in numbers {
        if is_with_several(shapes, *number) {
            return true;
        }
    }
    false
}

/// Whether the one that is there is such.
fn item_is(shapes: &Shapes, item: Option<usize>) -> bool
    ensures { result ≡ unwrap_or
        (option_map has_several (option_map (shape_at shapes.now) item)) false }
{
    match item {
        Some(number) => is_with_several(shapes, number),
        None => false,
    }
}

/// Whether the shape of that number is of several kinds, or has one inside it that is.
pub(crate) fn is_with_several(shapes: &Shapes, number: usize) -> bool
    ensures { result ≡ has_several (shape_at shapes.now number) }
{
    shapes.has_several(number).unwrap_or(false)
}
