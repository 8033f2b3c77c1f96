//! Trees that are lent, shared or made on the way.

ghost use Rattle.std.specs.Prelude.{◌≡◌, IfOk};
ghost use Rattle.asl_model.specs.Tree.{NoFields, Object};
ghost use Rattle.asl_processing.specs.Data.{data_view, datum_view};
ghost use Rattle.asl_tree.specs.View.{view};

use asl_tree::{OutOfMemory, Tree, copy};
use std::alloc::Global;
use std::collections::BTreeMap;
use std::rc::Rc;

/// A tree that several parts of a run show and none changes: what leaves a state is what enters the next, and what the
/// history tells is the same.
pub type Datum = Rc<Tree>;

/// A tree on its way through a state.
#[derive(Drop)]
pub enum Data<'t> {
    /// A node of a tree that stands elsewhere.
    Lent(&'t Tree),
    /// The whole of a datum of the run.
    Shared(&'t Datum),
    /// A tree of its own.
    Made(Tree),
}

impl<'t> Data<'t> {
    /// The empty object.
    pub(crate) fn empty(alloc: Global) -> Data<'t>
        ensures { data_view result ≡ Object NoFields }
    {
        Data::Made(Tree::Object(BTreeMap::new(alloc)))
    }

    /// The tree, to be read.
    pub(crate) fn as_tree(&self) -> &Tree
        ensures { view result.now ≡ data_view self.now }
    {
        match self {
            Data::Lent(tree) => tree,
            Data::Shared(datum) => datum,
            Data::Made(tree) => tree,
        }
    }

    /// The tree, to be kept by the run: only one that is lent is copied.
    ///
    /// Refused: want of memory.
    pub fn into_datum(self, alloc: Global) -> Result<Datum, OutOfMemory>
        ensures { IfOk result (λ d. datum_view d ≡ data_view self.entry) }
    {
        match self {
            Data::Lent(tree) => Ok(Rc::new(alloc, copy(alloc, tree)?)?),
            Data::Shared(datum) => Ok(datum.clone()?),
            Data::Made(tree) => Ok(Rc::new(alloc, tree)?),
        }
    }

    /// The tree, to become a part of another one, which owns its parts: only one that was made isn't copied.
    pub(crate) fn into_tree(self, alloc: Global) -> Result<Tree, OutOfMemory>
        ensures { IfOk result (λ t. view t ≡ data_view self.entry) }
    {
        match self {
            Data::Lent(tree) => copy(alloc, tree),
            Data::Shared(datum) => copy(alloc, datum),
            Data::Made(tree) => Ok(tree),
        }
    }
}
