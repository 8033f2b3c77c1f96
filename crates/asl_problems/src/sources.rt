//! The outlines of the two texts.
use asl_places::{Outline, OutlineRefusal};
use asl_tree::OutOfMemory;
use json::Scratch;
use std::alloc::Global;

/// A text's outline. A text that is no JSON, or is too long for one, has none.
#[derive(Drop)]
pub(crate) enum Outlined<'a> {
    Json(Outline<'a>),
    None,
}

impl<'a> Outlined<'a> {
    /// The outline of a text. Names and strings with escapes are kept in `scratch`.
    pub(crate) fn read(
        alloc: Global,
        text: &'a [u8],
        scratch: &'a mut Scratch,
    ) -> Result<Outlined<'a>, OutOfMemory> {
        let Ok(text) = str::from_utf8(text) else {
            return Ok(Outlined::None);
        };
        match Outline::read(alloc, text, scratch) {
            Ok(outline) => Ok(Outlined::Json(outline)),
            Err(OutlineRefusal::NotJson | OutlineRefusal::TooLong) => Ok(Outlined::None),
            Err(OutlineRefusal::OutOfMemory) => Err(OutOfMemory),
        }
    }
}
