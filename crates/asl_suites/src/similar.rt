//! Names that may be meant.

use crate::refusals::Unknown;
use asl_tree::{OutOfMemory, Tree};
use std::alloc::Global;
use std::collections::BTreeMap;
use strsim::levenshtein;

/// How many bytes a name has at most that is compared with others.
const MOST_BYTES: usize = 80;

/// How many edits lead at most from a name to one that may be meant.
const MOST_EDITS: usize = 2;

/// A name that isn't there, and of the names that were looked at the first of those from which the fewest edits lead to it, where
/// they are few.
#[derive(Drop)]
pub struct Similar<'a> {
    alloc: Global,
    name: &'a str,
    nearest: Option<&'a str>,
    /// How many edits lead to it; more than any that are few where there is none.
    fewest: usize,
}

impl<'a> Similar<'a> {
    /// The name, where no other was looked at yet.
    pub fn to(alloc: Global, name: &'a str) -> Similar<'a> {
        Similar {
            alloc,
            name,
            nearest: None,
            fewest: MOST_EDITS + 1,
        }
    }

    /// Looks at a name that is there. Refuses only where an allocation was refused.
    pub fn look_at(&mut self, other: &'a str) -> Result<(), OutOfMemory> {
        let edits = edits_between(self.alloc, self.name, other)?;
        if edits < self.fewest {
            self.fewest = edits;
            self.nearest = Some(other);
        }
        Ok(())
    }

    /// The name, and the one that may be meant. Refuses only where an allocation was refused.
    pub fn unknown(&self) -> Result<Unknown, OutOfMemory> {
        let similar = match self.nearest {
            Some(nearest) => Some(String::from_str(self.alloc, nearest)?),
            None => None,
        };
        Ok(Unknown {
            name: String::from_str(self.alloc, self.name)?,
            similar,
        })
    }
}

/// The name, which is none of those, and the one of them that may be meant.
pub(crate) fn unknown(
    alloc: Global,
    name: &str,
    names: &BTreeMap<String, Tree>,
) -> Result<Unknown, OutOfMemory> {
    let mut similar = Similar::to(alloc, name);
    for (other, _) in names.iter() {
        similar.look_at(other)?;
    }
    similar.unknown()
}

/// How many edits lead from one name to the other; more than [`MOST_EDITS`] stand for any number where one of them is long, or
/// where no letter of either stays.
fn edits_between(alloc: Global, name: &str, other: &str) -> Result<usize, OutOfMemory> {
    if name.len() > MOST_BYTES || other.len() > MOST_BYTES {
        return Ok(MOST_EDITS + 1);
    }
    let edits = levenshtein(alloc, name, other)?;
    let letters = name.chars().count().max(other.chars().count());
    if edits < letters {
        Ok(edits)
    } else {
        Ok(MOST_EDITS + 1)
    }
}
