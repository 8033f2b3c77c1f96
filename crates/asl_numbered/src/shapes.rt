// Shapes under numbers.
ghost use Rattle.std.specs.Prelude.{◌≡◌, ◌<◌, ◌↔◌, ℕ, List, [], length, IsTrue, IsSome, IfSome, IfOk, IfErr, Some, None, true, false};
ghost use Rattle.std.specs.Option.{option_map};
ghost use Rattle.asl_model.specs.Examples as examples;
ghost use Rattle.asl_model.specs.Examples.{IsOutside};
ghost use Rattle.asl_model.specs.Shape as model;
ghost use Rattle.asl_model.specs.ShapeOrder as order;
ghost use Rattle.asl_model.specs.ShapeSpelling.{SpellsShape, SpellsShapeV1, with_all_needed};
ghost use Rattle.asl_model.specs.Tree as json;
ghost use Rattle.asl_shape.specs.LevelView.{texts};
ghost use Rattle.asl_shape.specs.Properness.{is_proper};
ghost use Rattle.asl_shape.specs.View.{view};
ghost use Rattle.asl_tree.specs.View.{view as tree_view};
ghost use Rattle.asl_numbered.specs.Expansion.{shape_at, shape_over, fields_at, numbers_in, AreBelow, AreDistinct, RefersBelow, IsNumberOf, Keeps};
ghost use Rattle.asl_numbered.specs.Kinds.{IsProperNode};
ghost use Rattle.asl_numbered.specs.References.{shapes_given, SpellsWith, TellsOf, TellsFault};
ghost use Rattle.asl_numbered.specs.TakenApart.{taken_apart, kinds_at, AreKindsAt};

use crate::NumberedRefusal;
use crate::adding::add;
use crate::comparing::{Compared, compare};
use crate::examples::example;
use crate::expanding::expand;
use crate::finding::Sought;
use crate::joining::{Joined, join};
use crate::kinds::{KindNumbers, NodeKinds, put_kinds, take_apart};
use crate::node::{Node, NodeField};
use crate::outside::outside;
use crate::pair::Pair;
use crate::reading::{put_object, read};
use crate::table::Table;
use asl_model::shape_laws::{
    examples_have_their_shapes, join_is_above_both, sub_is_exactly_inside, sub_means_inside,
    uninhabited_means_no_tree,
};
use asl_shape::Shape;
use asl_tree::{OutOfMemory, Tree};
use indexmap::IndexMap;
use std::alloc::Global;
use std::collections::BTreeMap;
use std::marker::Model;
use std::rc::RcStr;

/// Distinct shapes, each under a number, counted from 0. Contracts see the list of them. A number keeps its shape,
/// whatever is added, and also where a call runs out of memory, which may leave further entries.
#[derive(Drop)]
pub struct Shapes {
    alloc: Global,
    table: Table,
    compared: Compared,
    joined: Joined,
}

impl Model for Shapes {
    ghost use Rattle.std.specs.Prelude.{List};
    ghost use Rattle.std.specs.Coded.{coded_list};
    ghost use Rattle.asl_model.specs.Shape.{Shape as ModelShape};
    ghost use Rattle.asl_numbered.specs.Coding.{coded_shape};
    ghost use Rattle.asl_numbered.specs.Comparison.{AreRight};
    ghost use Rattle.asl_numbered.specs.Joins.{AreJoins};

    ghost Value = { List ModelShape };

    ghost coded = { coded_list coded_shape };

    ghost view = { λ s. s.table };

    ghost invariant = { λ s. AreRight s.table s.compared.entries
        × AreJoins s.table s.joined.entries };
}

impl Shapes {
    /// No shapes. Takes no memory.
    pub fn new(alloc: Global) -> Shapes
        ensures none { result ≡ [] }
    {
        Shapes {
            alloc,
            table: Table::new(alloc),
            compared: IndexMap::new(alloc),
            joined: IndexMap::new(alloc),
        }
    }

    /// How many shapes there are: the numbers below it are theirs. Takes no memory.
    pub fn len(&self) -> usize
        ensures counted { result ≡ length self.now }
    {
        self.table.len()
    }

    /// No shape stands under two numbers. Reads nothing, and takes no memory.
    pub fn are_distinct(&self)
        ensures distinct { AreDistinct self.now }
    {
        self.table.are_distinct();
    }

    /// Each shape is proper: in the shapes of objects the names of fields are UTF-8 and stand in byte order. Reads nothing,
    /// and takes no memory.
    pub fn are_proper(&self)
        ensures proper { (n : ℕ) → model.IsProperShape (shape_at self.now n) }
    {
        self.table.are_proper();
    }

    /// The first level of the shape of that number; `None` where there is none. Takes no memory.
    pub fn node(&self, number: usize) -> Option<&Node>
        ensures there { IsSome result ↔ number < length self.now }
        ensures level { IfSome result
            (λ node. shape_over self.now node.now ≡ shape_at self.now number) }
        ensures earlier { IfSome result (λ node. RefersBelow number node.now) }
        ensures proper { IfSome result (λ node. IsProperNode self.now node.now) }
    {
        self.table.node(number)
    }

    /// What the shape of that number takes of each kind: `None` where it is `Any`, nothing where there is no such number.
    /// Takes no memory. Whoever goes over shapes by this need not tell a shape of one kind from one of several.
    pub fn take_apart(&self, number: usize) -> Option<NodeKinds<'_>>
        ensures shown { taken_apart self.now result ≡ shape_at self.now number }
        ensures within { IfSome result (AreKindsAt self.now number) }
    {
        take_apart(&self.table, number)
    }

    /// Whether some tree has the shape of that number; `None` where there is none. Takes no memory.
    pub fn inhabited(&self, number: usize) -> Option<bool>
        ensures there { IsSome result ↔ number < length self.now }
        ensures as_defined { IfSome result (λ b. b ≡ model.inhabited (shape_at self.now number)) }
    {
        self.table.inhabited(number)
    }

    /// Whether the shape of that number, or one inside it, is of several kinds; `None` where there is none. Takes no
    /// memory.
    pub fn has_several(&self, number: usize) -> Option<bool>
        ensures there { IsSome result ↔ number < length self.now }
        ensures as_defined { IfSome result (λ b. b ≡ model.has_several (shape_at self.now number)) }
    {
        self.table.has_several(number)
    }

    /// Whether every tree has the shape of that number: it is `Any`, or takes all trees of each kind. Takes no memory.
    pub fn takes_all(&self, number: usize) -> bool
        ensures as_defined { result ≡ order.takes_all (shape_at self.now number) }
    {
        self.table.takes_all(number)
    }

    /// The number of the shape whose first level is the node, and whose parts are the shapes of the node's numbers;
    /// `None` where one of these isn't below the length, or where the parts of a node of several aren't two or more, each
    /// of one kind, in byte order of the names of their types. Refuses only where an allocation was refused.
    pub fn add_node(&mut self, node: Node) -> Result<Option<usize>, OutOfMemory>
        ensures exactly { IfOk result
            (λ r. IsSome r ↔ RefersBelow (length self.old) node × IsProperNode self.old node) }
        ensures number { IfOk result
            (λ r. IfSome r (IsNumberOf self.new (shape_over self.old node))) }
        ensures keeps { Keeps self.old self.new }
    {
        self.table.add_node(node)
    }

    /// The number of the shape of these kinds: that of `Never` where there is none; where there is one, that of a shape of
    /// this kind alone. Refuses only where an allocation was refused.
    pub fn add_kinds(&mut self, kinds: KindNumbers) -> Result<usize, OutOfMemory>
        ensures number { IfOk result (IsNumberOf self.new (kinds_at self.old kinds)) }
        ensures keeps { Keeps self.old self.new }
    {
        put_kinds(&mut self.table, self.alloc, kinds)
    }

    /// The number of the shape of objects with these fields, of which those of these names are needed, too: a name of none
    /// of them is that of one more, of any value where other fields may be there, and of none where they may not. Refuses only
    /// where an allocation was refused.
    pub fn add_object(
        &mut self,
        fields: BTreeMap<RcStr, NodeField>,
        needed: &[&String],
        extra: bool,
    ) -> Result<usize, OutOfMemory>
        requires fields { AreBelow (length self.old) (numbers_in fields.entries) }
        ensures number { IfOk result (IsNumberOf self.new (model.ObjectShape
            (with_all_needed extra (texts needed.now) (fields_at self.old fields.entries))
            extra)) }
        ensures keeps { Keeps self.old self.new }
    {
        put_object(&mut self.table, self.alloc, fields, needed, extra)
    }

    /// The number of the shape. Refuses only where an allocation was refused.
    pub fn add(&mut self, shape: &Shape) -> Result<usize, OutOfMemory>
        ensures number { IfOk result (IsNumberOf self.new (view shape.now)) }
        ensures keeps { Keeps self.old self.new }
    {
        add(&mut self.table, self.alloc, shape)
    }

    /// The shape of that number, a proper one; `None` where there is none. Refuses only where an allocation was refused.
    pub fn expand(&self, number: usize) -> Result<Option<Shape>, OutOfMemory>
        ensures exactly { IfOk result (λ r. IsSome r ↔ number < length self.now) }
        ensures shape { IfOk result (λ r. IfSome r (λ s. view s ≡ shape_at self.now number)) }
        ensures proper { IfOk result (λ r. IfSome r (λ s. IsTrue (is_proper s))) }
    {
        if number < self.table.len() {
            Ok(Some(expand(&self.table, self.alloc, number)?))
        } else {
            Ok(None)
        }
    }

    /// Whether every tree of the first number's shape has the second's; `None` where one of the numbers isn't below the
    /// length. The answer is remembered, as those for the shapes' parts are that were looked at on the way, so that none is
    /// found out twice. Refuses only where an allocation was refused.
    pub fn sub(&mut self, inner: usize, outer: usize) -> Result<Option<bool>, OutOfMemory>
        ensures there { IfOk result
            (λ r. IsSome r ↔ (inner < length self.old) × (outer < length self.old)) }
        ensures as_defined { IfOk result
            (λ r. IfSome r (λ b. b ≡ order.sub (shape_at self.old inner)
            (shape_at self.old outer))) }
        ensures exactly { IfOk result
            (λ r. IfSome r (λ b. IsTrue b ↔ model.Inside (shape_at self.old inner)
            (shape_at self.old outer))) }
        ensures unchanged { self.new ≡ self.old }
    {
        sub_means_inside();
        sub_is_exactly_inside();
        self.table.are_proper();
        if inner < self.table.len() && outer < self.table.len() {
            let pair = Pair {
                first: inner,
                second: outer,
            };
            let answer = compare(&self.table, &mut self.compared, self.alloc, pair)?;
            Ok(Some(answer))
        } else {
            Ok(None)
        }
    }

    /// A tree of the shape of that number: of the first of its kinds of which there is a tree, in byte order of the names
    /// of their types, with the fewest elements and fields. `None` where no tree has the shape, and where there is no such
    /// number.
    ///
    /// The shapes share their parts, and a tree doesn't, so that a few shapes may have a tree of any size: room for a large
    /// one is asked for as a whole before it is made. Refuses only where an allocation was refused.
    pub fn example(&self, alloc: Global, number: usize) -> Result<Option<Tree>, OutOfMemory>
        ensures exactly { IfOk result
            (λ r. IsSome r ↔ IsTrue (model.inhabited (shape_at self.now number))) }
        ensures as_defined { IfOk result
            (λ r. IfSome r (λ t. tree_view t ≡ examples.example (shape_at self.now number))) }
        ensures has { IfOk result
            (λ r. IfSome r (λ t. model.Has (shape_at self.now number) (tree_view t))) }
        ensures none { IfOk result
            (λ r. r ≡ None → (t : json.Tree) → model.Has (shape_at self.now number) t → ⊥) }
    {
        examples_have_their_shapes();
        uninhabited_means_no_tree();
        self.table.are_proper();
        if self.table.is_inhabited(number) {
            Ok(Some(example(&self.table, alloc, number)?))
        } else {
            Ok(None)
        }
    }

    /// A tree of the first number's shape that lacks the second's: an example of the first, changed at one place where that
    /// itself has the second. `None` where every tree of the first has the second, and where one of the numbers isn't below
    /// the length.
    ///
    /// The comparisons on the way are remembered as those of [`Shapes::sub`], so that none is found out twice. Room for a
    /// large tree is asked for as in [`Shapes::example`]. Refuses only where an allocation was refused.
    pub fn outside(
        &mut self,
        alloc: Global,
        inner: usize,
        outer: usize,
    ) -> Result<Option<Tree>, OutOfMemory>
        ensures within { IfOk result
            (λ r. IsSome r → (inner < length self.old) × (outer < length self.old)) }
        ensures as_defined { IfOk result
            (λ r. inner < length self.old → outer < length self.old → option_map tree_view r
            ≡ examples.outside (shape_at self.old inner) (shape_at self.old outer)) }
        ensures outside { IfOk result
            (λ r. IfSome r (λ t. IsOutside (shape_at self.old inner)
            (shape_at self.old outer) (tree_view t))) }
        ensures none { IfOk result
            (λ r. inner < length self.old → outer < length self.old → r ≡ None
            → model.Inside (shape_at self.old inner) (shape_at self.old outer)) }
        ensures unchanged { self.new ≡ self.old }
    {
        sub_means_inside();
        sub_is_exactly_inside();
        self.table.are_proper();
        if inner < self.table.len() && outer < self.table.len() {
            let sought = Sought {
                first: Some(inner),
                second: outer,
            };
            outside(&self.table, &mut self.compared, alloc, sought)
        } else {
            Ok(None)
        }
    }

    /// The number of the join of the two shapes, as `join` of `asl_shape` makes it: every tree of either has it; `None`
    /// where one of the numbers isn't below the length. The answer is remembered, as those for the shapes' parts are that
    /// were joined on the way, so that none is found out twice. Refuses only where an allocation was refused.
    pub fn join(&mut self, first: usize, second: usize) -> Result<Option<usize>, OutOfMemory>
        ensures exactly { IfOk result
            (λ r. IsSome r ↔ (first < length self.old) × (second < length self.old)) }
        ensures as_defined { IfOk result
            (λ r. IfSome r (IsNumberOf self.new (order.join (shape_at self.old first)
            (shape_at self.old second)))) }
        ensures above { IfOk result
            (λ r. IfSome r (λ number. model.Inside (shape_at self.old first)
            (shape_at self.new number) × model.Inside (shape_at self.old second)
            (shape_at self.new number))) }
        ensures keeps { Keeps self.old self.new }
    {
        join_is_above_both();
        if first < self.table.len() && second < self.table.len() {
            let pair = Pair { first, second };
            let number = join(&mut self.table, &mut self.joined, self.alloc, pair)?;
            self.table.are_distinct();
            Ok(Some(number))
        } else {
            Ok(None)
        }
    }

    /// The number of the shape that the tree spells, as `asl_shape` reads it.
    ///
    /// Where numbers are given, an object whose only field is `shape` stands for a shape, wherever a spelling may have
    /// one: `{"shape": n}` for that of the number at place `n`, counted from 0. It is refused as `BadNumber` where `n` is
    /// no whole number, is negative, or isn't below the count. Where none are given, such an object is what the shape
    /// reader says of it.
    ///
    /// Where several refusals stand in a tree, the answer is one of them. A refusal may leave further entries in the table.
    pub fn read_with(
        &mut self,
        tree: &Tree,
        given: Option<&[usize]>,
    ) -> Result<usize, NumberedRefusal>
        requires given { IfSome given (λ ns. AreBelow (length self.old) ns.now) }
        ensures number { IfOk result (λ n. IsNumberOf self.new (shape_at self.new n) n) }
        ensures spelled { IfOk result
            (λ n. SpellsWith true (shapes_given self.old given.entry)
            (tree_view tree.now) (shape_at self.new n)) }
        ensures spelled_alone { given.entry ≡ None → IfOk result
            (λ n. SpellsShape (tree_view tree.now) (shape_at self.new n)) }
        ensures refused { IfErr result
            (TellsOf true (shapes_given self.old given.entry) (tree_view tree.now)) }
        ensures refused_alone { given.entry ≡ None
            → IfErr result (TellsFault true (tree_view tree.now)) }
        ensures keeps { Keeps self.old self.new }
    {
        self.read_spelled(tree, given, true)
    }

    /// The number of the shape that the tree spells where lists of types may not stand, as in certificates of version 1: as
    /// [`Shapes::read_with`] tells it, but that any such list is refused as `BadType`.
    pub fn read_with_v1(
        &mut self,
        tree: &Tree,
        given: Option<&[usize]>,
    ) -> Result<usize, NumberedRefusal>
        requires given { IfSome given (λ ns. AreBelow (length self.old) ns.now) }
        ensures number { IfOk result (λ n. IsNumberOf self.new (shape_at self.new n) n) }
        ensures spelled { IfOk result
            (λ n. SpellsWith false (shapes_given self.old given.entry)
            (tree_view tree.now) (shape_at self.new n)) }
        ensures spelled_alone { given.entry ≡ None → IfOk result
            (λ n. SpellsShapeV1 (tree_view tree.now) (shape_at self.new n)) }
        ensures refused { IfErr result
            (TellsOf false (shapes_given self.old given.entry) (tree_view tree.now)) }
        ensures refused_alone { given.entry ≡ None
            → IfErr result (TellsFault false (tree_view tree.now)) }
        ensures keeps { Keeps self.old self.new }
    {
        self.read_spelled(tree, given, false)
    }

    /// The number of the shape that the tree spells; `several` says whether lists of types may stand.
    fn read_spelled(
        &mut self,
        tree: &Tree,
        given: Option<&[usize]>,
        several: bool,
    ) -> Result<usize, NumberedRefusal>
        requires given { IfSome given (λ ns. AreBelow (length self.old) ns.now) }
        ensures number { IfOk result (λ n. IsNumberOf self.new (shape_at self.new n) n) }
        ensures spelled { IfOk result
            (λ n. SpellsWith several (shapes_given self.old given.entry)
            (tree_view tree.now) (shape_at self.new n)) }
        ensures refused { IfErr result
            (TellsOf several (shapes_given self.old given.entry) (tree_view tree.now)) }
        ensures keeps { Keeps self.old self.new }
    {
        let answer = read(&mut self.table, self.alloc, tree, given, several);
        self.table.are_distinct();
        answer
    }
}
