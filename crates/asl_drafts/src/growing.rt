//! A shape that grows as more flows into it.

use crate::cutting::join_cut;
use crate::store::Store;
use asl_numbered::Node;
use asl_tree::OutOfMemory;

/// How often a shape of a draft may change; the last change makes it Any.
const MOST_CHANGES: u8 = 33;

/// The number of a shape of a draft, and how often the shape may still change.
#[derive(Clone, Copy, Drop)]
pub(crate) struct Growing {
    pub(crate) number: usize,
    changes_left: u8,
}

impl Growing {
    ghost use Rattle.std.specs.Prelude.{◌≡◌, ◌<◌, length, IfOk};
    ghost use Rattle.asl_numbered.specs.Expansion.{shape_at, Keeps};
    ghost use Rattle.asl_drafts.specs.Growing.{Takes, IsGrown, growth_view};

    /// The shape of that number, unchanged so far.
    pub(crate) fn new(number: usize) -> Growing
        ensures { result ≡ record { number = number; changes_left = 33 } }
    {
        Growing {
            number,
            changes_left: MOST_CHANGES,
        }
    }

    /// Joins what flows in into the shape, and says whether this changed it. The last change makes it Any, and nothing
    /// changes it then.
    pub(crate) fn take(&mut self, store: &mut Store, flowing: usize) -> Result<bool, OutOfMemory>
        requires grown { IsGrown store.old self.old }
        requires flowing { flowing < length store.old }
        ensures takes { IfOk result
            (λ changed. Takes (growth_view store.old self.old) (shape_at store.old flowing) changed
            (growth_view store.new self.new)) }
        ensures grown { IsGrown store.new self.new }
        ensures keeps { Keeps store.old store.new }
    {
        if self.changes_left == 0 {
            return Ok(false);
        }
        let joined = join_cut(store, self.number, flowing)?;
        store.are_distinct();
        if joined == self.number {
            return Ok(false);
        }
        let grown = if self.changes_left == 1 {
            store.put(Node::Any)?
        } else {
            joined
        };
        self.changes_left -= 1;
        self.number = grown;
        Ok(true)
    }
}
