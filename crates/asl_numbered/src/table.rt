// A table of distinct nodes.
ghost use Rattle.std.specs.Prelude.{◌≡◌, ◌<◌, ◌↔◌, ℕ, List, [], length, map, IsTrue, IsSome, IfSome, IfOk, None};
ghost use Rattle.std.specs.List.{list_all, list_any};
ghost use Rattle.asl_model.specs.Shape as model;
ghost use Rattle.asl_model.specs.ShapeOrder as order;
ghost use Rattle.asl_numbered.specs.Expansion.{shape_at, shapes_at, fields_at, shape_over, numbers_in, AreBelow, RefersBelow, AreDistinct, IsNumberOf, Keeps};
ghost use Rattle.asl_numbered.specs.Kinds as places;
ghost use Rattle.asl_numbered.specs.Kinds.{AscendFrom, IsOfKind, IsProperNode, full, of_every_kind, tidy, tidy_fields, tidy_places};
ghost use Rattle.asl_numbered.specs.Table.{AreFactsOf, AreFieldsInOrder, IsOrdered};

use crate::node::{Node, NodeField};
use crate::weights::node_weight;
use asl_tree::OutOfMemory;
use indexmap::IndexMap;
use std::alloc::Global;
use std::collections::BTreeMap;
use std::marker::Model;
use std::rc::RcStr;

/// The nodes by number, each with what is known of its shape. Contracts see the list of the shapes that they stand for.
#[derive(Drop)]
pub(crate) struct Table {
    nodes: IndexMap<Node, Facts>,
}

/// What is known of a shape.
#[derive(Clone, Copy)]
pub(crate) struct Facts {
    /// Whether some tree has it.
    pub(crate) inhabited: bool,
    /// Whether it has every tree of each kind of which it has one.
    pub(crate) full: bool,
    /// Whether it, or one inside it, is of several kinds.
    pub(crate) several: bool,
    /// Whether nothing in it is left out where it is joined with itself.
    pub(crate) tidy: bool,
    /// How much room its example takes, if it has one: an estimate.
    pub(crate) weight: usize,
}

impl Model for Table {
    ghost use Rattle.std.specs.Prelude.{List};
    ghost use Rattle.std.specs.Coded.{coded_list};
    ghost use Rattle.asl_model.specs.Shape.{Shape as ModelShape};
    ghost use Rattle.asl_numbered.specs.Coding.{coded_shape};
    ghost use Rattle.asl_numbered.specs.Table.{IsTable, shapes_in};

    ghost Value = { List ModelShape };

    ghost coded = { coded_list coded_shape };

    ghost view = { λ t. shapes_in t.nodes.entries };

    ghost invariant = { λ t. IsTable t.nodes.entries };
}

impl Table {
    /// The empty table.
    #[tactic(auto, using(crate::proofs::Tables::empty_table))]
    pub(crate) fn new(alloc: Global) -> Table
        ensures { result ≡ [] }
    {
        Table {
            nodes: IndexMap::new(alloc),
        }
    }

    /// The number of shapes.
    #[tactic(auto, using(crate::proofs::Tables::shapes_length))]
    pub(crate) fn len(&self) -> usize
        ensures { result ≡ length self.now }
    {
        self.nodes.len()
    }

    /// No shape stands under two numbers.
    pub(crate) fn are_distinct(&self)
        ensures distinct { AreDistinct self.now }
    {
        // The field is named for what is always true of it; nothing is read.
        let _ = &self.nodes;
    }

    /// Each shape is proper.
    pub(crate) fn are_proper(&self)
        ensures proper { (n : ℕ) → model.IsProperShape (shape_at self.now n) }
    {
        // The field is named for what is always true of it; nothing is read.
        let _ = &self.nodes;
    }

    /// The first level of the shape of that number.
    pub(crate) fn node(&self, number: usize) -> Option<&Node>
        ensures there { IsSome result ↔ number < length self.now }
        ensures level { IfSome result
            (λ node. shape_over self.now node.now
            ≡ shape_at self.now number) }
        ensures earlier { IfSome result (λ node. RefersBelow number node.now) }
        ensures proper { IfSome result (λ node. IsProperNode self.now node.now) }
    {
        match self.nodes.get_index(number) {
            Some(entry) => Some(entry.0),
            None => None,
        }
    }

    /// Whether the shape of that number is inhabited.
    pub(crate) fn inhabited(&self, number: usize) -> Option<bool>
        ensures there { IsSome result ↔ number < length self.now }
        ensures as_defined { IfSome result (λ b. b ≡ model.inhabited (shape_at self.now number)) }
    {
        match self.nodes.get_index(number) {
            Some(entry) => Some(entry.1.inhabited),
            None => None,
        }
    }

    /// Whether the shape of that number is inhabited; not where there is none.
    #[tactic(auto, using(crate::proofs::Tables::told_inhabited))]
    pub(crate) fn is_inhabited(&self, number: usize) -> bool
        ensures { result ≡ model.inhabited (shape_at self.now number) }
    {
        self.inhabited(number).unwrap_or(false)
    }

    /// Whether the shape of that number, or one inside it, is of several kinds.
    pub(crate) fn has_several(&self, number: usize) -> Option<bool>
        ensures there { IsSome result ↔ number < length self.now }
        ensures as_defined { IfSome result (λ b. b ≡ model.has_several (shape_at self.now number)) }
    {
        match self.nodes.get_index(number) {
            Some(entry) => Some(entry.1.several),
            None => None,
        }
    }

    /// The same; not where there is none.
    #[tactic(auto, using(crate::proofs::Tables::told_several))]
    pub(crate) fn is_with_several(&self, number: usize) -> bool
        ensures { result ≡ model.has_several (shape_at self.now number) }
    {
        self.has_several(number).unwrap_or(false)
    }

    /// How much room the example of the shape of that number takes, if it has one: an estimate.
    pub(crate) fn weight(&self, number: usize) -> usize {
        match self.nodes.get_index(number) {
            Some(entry) => entry.1.weight,
            None => 0,
        }
    }

    /// Whether every tree has the shape of that number.
    pub(crate) fn takes_all(&self, number: usize) -> bool
        ensures { result ≡ order.takes_all (shape_at self.now number) }
    {
        match self.nodes.get_index(number) {
            Some(entry) => entry.1.full && has_every_kind(entry.0),
            None => false,
        }
    }

    /// Whether the shape of that number has every tree of each kind of which it has one.
    pub(crate) fn is_full(&self, number: usize) -> bool
        ensures { result ≡ full (shape_at self.now number) }
    {
        match self.nodes.get_index(number) {
            Some(entry) => entry.1.full,
            None => true,
        }
    }

    /// Whether nothing in the shape of that number is left out where it is joined with itself.
    pub(crate) fn is_tidy(&self, number: usize) -> bool
        ensures { result ≡ tidy (shape_at self.now number) }
    {
        match self.nodes.get_index(number) {
            Some(entry) => entry.1.tidy,
            None => true,
        }
    }

    /// The number of the shape whose first level is the node; none where the node has a number that isn't below the
    /// length, or is of several parts and isn't proper.
    pub(crate) fn add_node(&mut self, node: Node) -> Result<Option<usize>, OutOfMemory>
        ensures exactly { IfOk result
            (λ r. IsSome r ↔ RefersBelow (length self.old) node
            × IsProperNode self.old node) }
        ensures number { IfOk result
            (λ r. IfSome r (IsNumberOf self.new
            (shape_over self.old node))) }
        ensures keeps { Keeps self.old self.new }
    {
        if refers_below(&node, self.len()) && is_proper(self, &node) {
            Ok(Some(self.put(node)?))
        } else {
            Ok(None)
        }
    }

    /// The number of the shape whose first level is the node.
    #[tactic(auto, using(crate::proofs::Expansions::keeps_unchanged))]
    pub(crate) fn put(&mut self, node: Node) -> Result<usize, OutOfMemory>
        requires refers { RefersBelow (length self.old) node }
        requires proper { IsProperNode self.old node }
        ensures number { IfOk result (IsNumberOf self.new (shape_over self.old node)) }
        ensures keeps { Keeps self.old self.new }
    {
        if let Some(number) = self.nodes.get_index_of(&node) {
            return Ok(number);
        }
        let number = self.nodes.len();
        let facts = node_facts(self, &node);
        drop(self.nodes.insert(node, facts)?);
        Ok(number)
    }
}

// Whether each number in the node is below the bound.
#[tactic(auto, using(crate::proofs::Expansions::simple_refers, crate::proofs::Expansions::list_refers, crate::proofs::Expansions::object_refers, crate::proofs::Expansions::several_refers))]
fn refers_below(node: &Node, bound: usize) -> bool
    ensures { IsTrue result ↔ RefersBelow bound node.now }
{
    match node {
        Node::Any | Node::Never | Node::Null | Node::Bool | Node::Int | Node::Text => true,
        Node::List { first, rest } => *rest < bound && all_below(first, bound),
        Node::Object { fields, .. } => fields_below(fields, bound),
        Node::Several(parts) => all_below(parts, bound),
    }
}

// Whether each of the numbers is below the bound.
fn all_below(numbers: &[usize], bound: usize) -> bool
    ensures { IsTrue result ↔ AreBelow bound numbers.now }
{
    for number in numbers {
        if *number >= bound {
            return false;
        }
    }
    true
}

// Whether the number of each field is below the bound.
fn fields_below(fields: &BTreeMap<RcStr, NodeField>, bound: usize) -> bool
    ensures { IsTrue result ↔ AreBelow bound (numbers_in fields.now.entries) }
{
    for (_, field) in fields.iter() {
        if field.shape >= bound {
            return false;
        }
    }
    true
}

// Whether the node is proper, where it is of several parts.
fn is_proper(table: &Table, node: &Node) -> bool
    ensures { IsTrue result ↔ IsProperNode table.now node.now }
{
    match node {
        Node::Any | Node::Never | Node::Null | Node::Bool | Node::Int | Node::Text => true,
        Node::List { .. } | Node::Object { .. } => true,
        Node::Several(parts) => parts.len() > 1 && ascend(table, parts),
    }
}

// Whether each of the shapes is of one kind, and these stand in byte order of the names of their types.
fn ascend(table: &Table, parts: &[usize]) -> bool
    ensures { IsTrue result ↔ AscendFrom 0 (map (shape_at table.now) parts.now) }
{
    let mut place = 0;
    for part in parts {
        match kind_at(table, *part) {
            Some(kind) if kind >= place => place = kind + 1,
            _ => return false,
        }
    }
    true
}

// The place of the only kind of which the shape is, in byte order of the names of types.
fn kind_at(table: &Table, number: usize) -> Option<usize>
    ensures one { IfSome result (λ kind. IsOfKind kind (shape_at table.now number)) }
    ensures none { result ≡ None → (kind : ℕ) → IsOfKind kind (shape_at table.now number) → ⊥ }
{
    match table.node(number) {
        Some(node) => place_of(node),
        None => None,
    }
}

// The place of the node's kind, if it is of one.
fn place_of(node: &Node) -> Option<usize>
    ensures { result ≡ places.place_of node.now }
{
    match node {
        Node::List { .. } => Some(0),
        Node::Bool => Some(1),
        Node::Int => Some(2),
        Node::Null => Some(3),
        Node::Object { .. } => Some(4),
        Node::Text => Some(5),
        Node::Any | Node::Never | Node::Several(_) => None,
    }
}

// Whether the node is of `Any`, or has a part of each kind.
fn has_every_kind(node: &Node) -> bool
    ensures { result ≡ of_every_kind node.now }
{
    match node {
        Node::Any => true,
        Node::Several(parts) => parts.len() == 6,
        Node::Never | Node::Null | Node::Bool | Node::Int | Node::Text => false,
        Node::List { .. } | Node::Object { .. } => false,
    }
}

// What is known of the shape whose first level is the node.
fn node_facts(table: &Table, node: &Node) -> Facts
    requires proper { IsProperNode table.now node.now }
    ensures facts { AreFactsOf (shape_over table.now node.now) result }
    ensures ordered { IsOrdered node.now }
{
    Facts {
        inhabited: node_inhabited(table, node),
        full: is_node_full(table, node),
        several: node_has_several(table, node),
        tidy: is_node_tidy(table, node),
        weight: node_weight(table, node),
    }
}

// Whether the shape whose first level is the node is inhabited.
fn node_inhabited(table: &Table, node: &Node) -> bool
    requires proper { IsProperNode table.now node.now }
    ensures inhabited { result ≡ model.inhabited (shape_over table.now node.now) }
    ensures ordered { IsOrdered node.now }
{
    match node {
        Node::Any | Node::Null | Node::Bool | Node::Int | Node::Text => true,
        Node::Never => false,
        Node::List { first, .. } => all_inhabited(table, first),
        Node::Object { fields, .. } => needed_inhabited(table, fields),
        Node::Several(parts) => some_inhabited(table, parts),
    }
}

// Whether each of the shapes is inhabited.
fn all_inhabited(table: &Table, numbers: &[usize]) -> bool
    ensures { result ≡ model.all_inhabited (shapes_at table.now numbers.now) }
{
    for number in numbers {
        if !table.is_inhabited(*number) {
            return false;
        }
    }
    true
}

// Whether the shape of each needed field is inhabited.
fn needed_inhabited(table: &Table, fields: &BTreeMap<RcStr, NodeField>) -> bool
    ensures inhabited { result ≡ model.needed_inhabited (fields_at table.now fields.now.entries) }
    ensures ordered { AreFieldsInOrder fields.now.entries }
{
    for (_, field) in fields.iter() {
        if field.needed && !table.is_inhabited(field.shape) {
            return false;
        }
    }
    true
}

// Whether one of the shapes is inhabited.
fn some_inhabited(table: &Table, numbers: &[usize]) -> bool
    ensures { result ≡ list_any model.inhabited (map (shape_at table.now) numbers.now) }
{
    for number in numbers {
        if table.is_inhabited(*number) {
            return true;
        }
    }
    false
}

// Whether the shape whose first level is the node has every tree of each kind of which it has one.
fn is_node_full(table: &Table, node: &Node) -> bool
    requires proper { IsProperNode table.now node.now }
    ensures { result ≡ full (shape_over table.now node.now) }
{
    match node {
        Node::Any | Node::Never | Node::Null | Node::Bool | Node::Int | Node::Text => true,
        Node::List { first, rest } => first.is_empty() && table.takes_all(*rest),
        Node::Object { fields, extra } => *extra && asks_nothing(table, fields),
        Node::Several(parts) => are_full(table, parts),
    }
}

// Whether no field is needed, and each may be every tree.
fn asks_nothing(table: &Table, fields: &BTreeMap<RcStr, NodeField>) -> bool
    ensures { result ≡ order.asks_nothing (fields_at table.now fields.now.entries) }
{
    for (_, field) in fields.iter() {
        if field.needed || !table.takes_all(field.shape) {
            return false;
        }
    }
    true
}

// Whether each of the shapes has every tree of each kind of which it has one.
fn are_full(table: &Table, numbers: &[usize]) -> bool
    ensures { result ≡ list_all full (map (shape_at table.now) numbers.now) }
{
    for number in numbers {
        if !table.is_full(*number) {
            return false;
        }
    }
    true
}

// Whether the shape whose first level is the node, or one inside it, is of several kinds.
fn node_has_several(table: &Table, node: &Node) -> bool
    requires proper { IsProperNode table.now node.now }
    ensures { result ≡ model.has_several (shape_over table.now node.now) }
{
    match node {
        Node::Any | Node::Never | Node::Null | Node::Bool | Node::Int | Node::Text => false,
        Node::List { first, rest } => some_has_several(table, first)
            || table.is_with_several(*rest),
        Node::Object { fields, .. } => field_has_several(table, fields),
        Node::Several(_) => true,
    }
}

// Whether one of the shapes, or one inside it, is of several kinds.
fn some_has_several(table: &Table, numbers: &[usize]) -> bool
    ensures { result ≡ model.some_has_several (shapes_at table.now numbers.now) }
{
    for number in numbers {
        if table.is_with_several(*number) {
            return true;
        }
    }
    false
}

// Whether the shape of one of the fields, or one inside it, is of several kinds.
fn field_has_several(table: &Table, fields: &BTreeMap<RcStr, NodeField>) -> bool
    ensures { result ≡ model.field_has_several (fields_at table.now fields.now.entries) }
{
    for (_, field) in fields.iter() {
        if table.is_with_several(field.shape) {
            return true;
        }
    }
    false
}

// Whether nothing in the shape whose first level is the node is left out where it is joined with itself.
fn is_node_tidy(table: &Table, node: &Node) -> bool
    requires proper { IsProperNode table.now node.now }
    ensures { result ≡ tidy (shape_over table.now node.now) }
{
    match node {
        Node::Any | Node::Never | Node::Null | Node::Bool | Node::Int | Node::Text => true,
        Node::List { first, rest } => are_places_tidy(table, first) && table.is_tidy(*rest),
        Node::Object { fields, .. } => are_fields_tidy(table, fields),
        Node::Several(parts) => are_tidy(table, parts),
    }
}

// Whether each of the shapes is inhabited, and nothing in it is left out.
fn are_places_tidy(table: &Table, numbers: &[usize]) -> bool
    ensures { result ≡ tidy_places (shapes_at table.now numbers.now) }
{
    for number in numbers {
        if !table.is_inhabited(*number) || !table.is_tidy(*number) {
            return false;
        }
    }
    true
}

// Whether the shape of each needed field is inhabited, and nothing in the shape of a field is left out.
fn are_fields_tidy(table: &Table, fields: &BTreeMap<RcStr, NodeField>) -> bool
    ensures { result ≡ tidy_fields (fields_at table.now fields.now.entries) }
{
    for (_, field) in fields.iter() {
        if (field.needed && !table.is_inhabited(field.shape)) || !table.is_tidy(field.shape) {
            return false;
        }
    }
    true
}

// Whether nothing in one of the shapes is left out.
fn are_tidy(table: &Table, numbers: &[usize]) -> bool
    ensures { result ≡ list_all tidy (map (shape_at table.now) numbers.now) }
{
    for number in numbers {
        if !table.is_tidy(*number) {
            return false;
        }
    }
    true
}
