//! The table of a draft's shapes, with what is found out about them.

ghost use Rattle.std.specs.Prelude.{◌≡◌, ◌<◌, ◌↔◌, [], length, map, option_map, IfOk, IfSome, IsTrue, OnOk};
ghost use Rattle.asl_model.specs.Edges.{walk};
ghost use Rattle.asl_model.specs.Examples as examples;
ghost use Rattle.asl_model.specs.Missing as missing;
ghost use Rattle.asl_model.specs.ShapeOrder as order;
ghost use Rattle.asl_tree.specs.View.{view as tree_view};
ghost use Rattle.asl_shape.specs.View.{view};
ghost use Rattle.asl_states.specs.Machine.{kind_view, settings_view};
ghost use Rattle.asl_shape_paths.specs.Doubts.{doubtful_view};
ghost use Rattle.asl_state_edges.specs.Entry.{entry_view, IsEntryBelow};
ghost use Rattle.asl_state_edges.specs.View.{steps_of, AreStepsBelow};
ghost use Rattle.asl_numbered.specs.Expansion.{shape_at, shape_over, AreBelow, AreDistinct, Keeps, RefersBelow, Shows};
ghost use Rattle.asl_numbered.specs.Kinds.{IsProperNode};
ghost use Rattle.asl_numbered.specs.TakenApart.{kinds_at};
ghost use Rattle.asl_drafts.specs.Depths.{told_depth};
ghost use Rattle.asl_drafts.specs.Cuts.{cut_of};
ghost use Rattle.asl_drafts.specs.Parts.{parts_of, with_parts, CanBePut, IsPut};

use crate::depths::depth_of;
use crate::rebuilding::{parts_in, rebuild_kinds};
use asl_numbered::{KindNumbers, Node, Shapes};
use asl_shape::Shape;
use asl_shape_paths::{DoubtfulPath, missing_at};
use asl_state_edges::{Entry, Step, edges_of};
use asl_states::State;
use asl_tree::{OutOfMemory, Tree};
use indexmap::IndexMap;
use std::alloc::Global;
use std::marker::Model;

/// The number of a shape, and down to how many levels it is cut.
#[derive(Clone, Copy, PartialEq, Eq, Hash)]
pub(crate) struct Cut {
    pub(crate) number: usize,
    pub(crate) levels: u8,
}

/// The table of a draft's shapes. Contracts see the list of them.
#[derive(Drop)]
pub struct Store {
    pub(crate) alloc: Global,
    pub(crate) shapes: Shapes,
    /// How deep the first of them are.
    depths: Vec<u8>,
    /// The numbers of the shapes that were cut.
    cuts: IndexMap<Cut, usize>,
}

impl Model for Store {
    ghost use Rattle.std.specs.Prelude.{List};
    ghost use Rattle.std.specs.Coded.{coded_list};
    ghost use Rattle.asl_model.specs.Shape.{Shape as ModelShape};
    ghost use Rattle.asl_numbered.specs.Coding.{coded_shape};
    ghost use Rattle.asl_drafts.specs.Cuts.{AreCuts};
    ghost use Rattle.asl_drafts.specs.Depths.{AreDepths};

    ghost Value = { List ModelShape };

    ghost coded = { coded_list coded_shape };

    ghost view = { λ s. s.shapes };

    ghost invariant = { λ s. AreDepths s.shapes s.depths.items
        × AreCuts s.shapes s.cuts.entries };
}

impl Store {
    /// A table without shapes.
    pub fn new(alloc: Global) -> Store
        ensures none { result ≡ [] }
    {
        Store {
            alloc,
            shapes: Shapes::new(alloc),
            depths: Vec::new(alloc),
            cuts: IndexMap::new(alloc),
        }
    }

    /// The shapes alone.
    pub fn into_shapes(self) -> Shapes
        ensures { result ≡ self }
    {
        self.shapes
    }

    /// Whether a shape has that number.
    pub(crate) fn has(&self, number: usize) -> bool
        ensures { IsTrue result ↔ (number < length self.now) }
    {
        number < self.shapes.len()
    }

    /// No shape stands under two numbers. Reads nothing, and takes no memory.
    pub(crate) fn are_distinct(&self)
        ensures distinct { AreDistinct self.now }
    {
        self.shapes.are_distinct();
    }

    /// The number of the shape.
    pub fn add(&mut self, shape: &Shape) -> Result<usize, OutOfMemory>
        ensures number { IfOk result (Shows self.new (view shape.now)) }
        ensures keeps { Keeps self.old self.new }
    {
        self.shapes.add(shape)
    }

    /// The number of the shape with that first level, which is proper.
    pub fn put(&mut self, node: Node) -> Result<usize, OutOfMemory>
        requires refers { RefersBelow (length self.old) node }
        requires proper { IsProperNode self.old node }
        ensures number { IfOk result (Shows self.new (shape_over self.old node)) }
        ensures keeps { Keeps self.old self.new }
    {
        let number = self.shapes.add_node(node)?;
        Ok(number.unwrap())
    }

    /// The number of the join of the shapes of two numbers: the second where no tree has the first shape, as when something
    /// flows into a shape for the first time.
    pub(crate) fn join(&mut self, first: usize, second: usize) -> Result<usize, OutOfMemory>
        requires first { first < length self.old }
        requires second { second < length self.old }
        ensures join { IfOk result
            (Shows self.new (order.join (shape_at self.old first) (shape_at self.old second))) }
        ensures keeps { Keeps self.old self.new }
    {
        if !self.shapes.inhabited(first).unwrap() {
            return Ok(second);
        }
        let number = self.shapes.join(first, second)?;
        Ok(number.unwrap())
    }

    /// A tree of the first number's shape that lacks the second's, if there is one.
    pub(crate) fn outside(
        &mut self,
        inner: usize,
        outer: usize,
    ) -> Result<Option<Tree>, OutOfMemory>
        requires inner { inner < length self.old }
        requires outer { outer < length self.old }
        ensures as_defined { IfOk result
            (λ tree. option_map tree_view tree ≡ examples.outside (shape_at self.old inner)
            (shape_at self.old outer)) }
        ensures same { self.new ≡ self.old }
    {
        self.shapes.outside(self.alloc, inner, outer)
    }

    /// A tree that shows the path to be doubtful, if there is one.
    pub(crate) fn counterexample(&mut self, path: DoubtfulPath) -> Result<Option<Tree>, OutOfMemory>
        requires { path.shape < length self.old }
        ensures as_defined { IfOk result
            (λ tree. option_map tree_view tree
            ≡ missing.counterexample (doubtful_view self.old path.entry)) }
        ensures keeps { Keeps self.old self.new }
    {
        missing_at(self.alloc, &mut self.shapes, path.shape, path.path)
    }

    /// The steps of the walk through a state with these shapes, for what its task gives.
    pub(crate) fn edges<'m>(
        &mut self,
        state: &'m State,
        entry: Entry,
        gives: usize,
    ) -> Result<Vec<Step<'m>>, OutOfMemory>
        requires entry { IsEntryBelow (length self.old) entry }
        requires gives { gives < length self.old }
        ensures walked { IfOk result
            (λ steps. steps_of self.new steps.items
            ≡ walk (shape_at self.old gives) (settings_view state.now.settings)
            (kind_view state.now.kind) (entry_view self.old entry.entry)) }
        ensures below { IfOk result (λ steps. AreStepsBelow (length self.new) steps.items) }
        ensures keeps { Keeps self.old self.new }
    {
        edges_of(self.alloc, &mut self.shapes, state, entry, gives)
    }

    /// How deep the shape of that number is, 255 where it is deeper.
    pub(crate) fn depth(&mut self, number: usize) -> Result<u8, OutOfMemory>
        requires { number < length self.old }
        ensures depth { IfOk result (λ d. d ≡ told_depth (shape_at self.old number)) }
        ensures same { self.new ≡ self.old }
    {
        depth_of(&self.shapes, &mut self.depths, number)
    }

    /// The number of the shape that is cut so, if it is known.
    pub(crate) fn known(&self, cut: Cut) -> Option<usize>
        ensures { IfSome result (Shows self.now (cut_of self.now cut)) }
    {
        self.cuts.get(&cut).copied()
    }

    /// Remembers the number of the shape that is cut so.
    pub(crate) fn remember(&mut self, cut: Cut, number: usize) -> Result<(), OutOfMemory>
        requires within { cut.number < length self.old }
        requires shown { Shows self.old (cut_of self.old cut) number }
        ensures { self.new ≡ self.old }
    {
        drop(self.cuts.insert(cut, number)?);
        Ok(())
    }

    /// The numbers of the parts of the shape of that number.
    pub(crate) fn parts(&self, number: usize) -> Result<Vec<usize>, OutOfMemory>
        requires { number < length self.now }
        ensures parts { IfOk result
            (λ numbers. map (shape_at self.now) numbers.items
            ≡ parts_of (shape_at self.now number)) }
        ensures below { IfOk result
            (λ numbers. AreBelow (length self.now) numbers.items) }
    {
        match self.shapes.take_apart(number) {
            Some(kinds) => parts_in(self.alloc, kinds),
            None => Ok(Vec::new(self.alloc)),
        }
    }

    /// The number of the shape of that number with other parts.
    pub(crate) fn rebuild(&mut self, number: usize, parts: &[usize]) -> Result<usize, OutOfMemory>
        requires within { number < length self.old }
        requires below { AreBelow (length self.old) parts.now }
        requires counted { length parts.now ≡ length (parts_of (shape_at self.old number)) }
        ensures rebuilt { IfOk result
            (Shows self.new (with_parts (shape_at self.old number)
            (map (shape_at self.old) parts.now))) }
        ensures keeps { Keeps self.old self.new }
    {
        let Some(kinds) = self.shapes.take_apart(number) else {
            return Ok(number);
        };
        let simple = KindNumbers {
            null: kinds.null,
            boolean: kinds.boolean,
            integer: kinds.integer,
            text: kinds.text,
            arrays: None,
            objects: None,
        };
        let built = rebuild_kinds(self.alloc, kinds, parts)?;
        let arrays = self.put_level(built.arrays)?;
        let objects = self.put_level(built.objects)?;
        self.put_kinds(KindNumbers {
            arrays,
            objects,
            ..simple
        })
    }

    /// The number of the shape with that first level, if there is one.
    fn put_level(&mut self, level: Option<Node>) -> Result<Option<usize>, OutOfMemory>
        requires { CanBePut (length self.old) level }
        ensures number { IfOk result (IsPut self.old level self.new) }
        ensures keeps { Keeps self.old self.new }
    {
        match level {
            Some(node) => Ok(Some(self.put(node)?)),
            None => Ok(None),
        }
    }

    /// The number of the shape of these kinds.
    fn put_kinds(&mut self, kinds: KindNumbers) -> Result<usize, OutOfMemory>
        ensures number { IfOk result (Shows self.new (kinds_at self.old kinds)) }
        ensures keeps { Keeps self.old self.new }
    {
        self.shapes.add_kinds(kinds)
    }
}
