//! Paths and calls in payload templates.
use asl_template::{SpellingRefusal, from_tree};
use asl_tree::{OutOfMemory, Tree};
use std::alloc::Global;
use std::collections::BTreeMap;

/// What the name of a field ends in whose value is a path or a call.
pub const SUFFIX: &str = ".$";

/// Why the text can't be the path or the call of a field in a template, where it can't. `item` says whether paths to a
/// Map's item are allowed.
pub fn refusal_of(
    alloc: Global,
    text: &str,
    item: bool,
) -> Result<Option<SpellingRefusal>, OutOfMemory> {
    let text = String::from_str(alloc, text)?;
    let mut fields = BTreeMap::new(alloc);
    drop(fields.insert(String::from_str(alloc, SUFFIX)?, Tree::Text(text))?);
    match from_tree(alloc, &Tree::Object(fields), item) {
        Ok(_) => Ok(None),
        Err(SpellingRefusal::OutOfMemory) => Err(OutOfMemory),
        Err(refusal) => Ok(Some(refusal)),
    }
}
