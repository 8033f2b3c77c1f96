//! The table of what stands at the places of a run.

ghost use Rattle.std.specs.Prelude.{◌+◌, ◌++◌, ◌<◌, ◌≡◌, ◌∷◌, ◌^◌, [], IfErr, IfOk, IfSome, List, None, length, map, Some, option_and_then, option_map, slice_get, ℕ};
ghost use Rattle.asl_run.specs.Changing.{AreAlike, CanApply, IsApplied, IsWritten};
ghost use Rattle.asl_run.specs.Nodes.{IsBegunWith, IsTable, child_number, in_table, number_from, number_in_range, range_of, shown_from};
ghost use Rattle.asl_run.specs.declared.nodes.Node as code;
ghost use Rattle.asl_run.specs.declared.nodes.Node.TheVariants as variants;

use crate::changing::Change;
use crate::entries::Outcome;
use asl_processing::{Datum, Visit};
use asl_tree::{OutOfMemory, Tree};
use std::alloc::{AllocFailed, Global};
use std::marker::Model;
use std::rc::Rc;

/// The number of a node in its table.
#[derive(Clone, Copy, Debug, PartialEq, Eq, Drop)]
pub(crate) struct NodeNumber(pub(crate) usize);

/// The children of a Parallel or a Map, in the order of branches or items: so many nodes in succession.
#[derive(Clone, Copy, Debug, PartialEq, Eq, Drop)]
pub(crate) struct Children {
    pub(crate) first: NodeNumber,
    pub(crate) count: usize,
}

/// What stands at a place.
#[derive(Drop)]
pub(crate) enum Node {
    /// A state about to be entered.
    Ready(Visit),
    /// A Task whose task was asked with a payload.
    Waiting { visit: Visit, payload: Datum },
    /// A Parallel or a Map with its children.
    Split { visit: Visit, children: Children },
    /// The scope has ended.
    Ended(Outcome),
}

/// What stands at the places of a run: the machine's own place first, each node's children behind it.
#[derive(Drop)]
pub(crate) struct Nodes {
    nodes: Vec<Node>,
}

impl Model for Nodes {
    ghost use Rattle.std.specs.Prelude.{List};
    ghost use Rattle.asl_run.specs.Nodes.{IsTable};
    ghost use Rattle.asl_run.specs.declared.nodes.Node as code;
    ghost use Rattle.asl_tree.specs.contracts.Tree as trees;
    ghost use Rattle.std.specs.Coded.{codes};

    ghost Value = { List code.Node };

    ghost coded = { Prim.hlevel (codes, trees.the_row.coded) };

    ghost view = { λ table. table.nodes.items };

    ghost invariant = { λ table. IsTable table.nodes.items };
}

impl Nodes {
    /// A table with the state of that number at the machine's own place, about to be entered with that raw input. A
    /// refusal, which is out of memory, gives the input back.
    pub(crate) fn new(alloc: Global, state: usize, input: Tree) -> Result<Nodes, Tree>
        ensures node { IfOk result (λ table. IsBegunWith state input table) }
        ensures returned { IfErr result (λ back. back ≡ input) }
    {
        let Ok(mut nodes) = Vec::with_capacity(alloc, 1) else {
            return Err(input);
        };
        let raw = match Rc::new(alloc, input) {
            Ok(raw) => raw,
            Err(AllocFailed { value }) => return Err(value),
        };
        let visit = Visit::new(alloc, state, raw);
        nodes.push_reserved(Node::Ready(visit));
        Ok(Nodes { nodes })
    }

    /// The number of the machine's own place.
    pub(crate) fn root(&self) -> NodeNumber
        ensures first { result.0 ≡ 0 }
        ensures table { IsTable self.now }
    {
        // The field is named for what is always true of it; nothing is read.
        let _ = &self.nodes;
        NodeNumber(0)
    }

    /// The node of that number.
    pub(crate) fn node(&self, number: NodeNumber) -> &Node
        requires { number.0 < length self.now }
        ensures node { slice_get self.now number.0 ≡ Some result.now }
        ensures table { IsTable self.now }
        ensures few { length self.now < 2 ^ 64 }
    {
        &self.nodes[number.0]
    }

    /// The children of a node; only a Split has some.
    pub(crate) fn children(&self, node: &Node) -> &[Node]
        ensures { result.now ≡ in_table (range_of node.now) self.now }
    {
        match node {
            Node::Split { visit: _, children } => self.part(*children),
            Node::Ready(_) | Node::Waiting { .. } | Node::Ended(_) => &[],
        }
    }

    /// So many nodes in succession; none where the table doesn't have them all.
    fn part(&self, children: Children) -> &[Node]
        ensures { result.now ≡ in_table (Some children) self.now }
    {
        match self.nodes.get(children.first.0..) {
            Some(behind) => behind.get(..children.count).unwrap_or(behind),
            None => &[],
        }
    }

    /// The number of the node at that place; none where there is no such place.
    pub(crate) fn number_at(&self, place: &[usize]) -> Option<NodeNumber>
        ensures number { option_map (λ n. n.0) result ≡ number_from self.now 0 place.now }
        ensures within { IfSome result (λ n. n.0 < length self.now) }
        ensures table { IsTable self.now }
    {
        let mut here = self.root();
        for number in place {
            here = self.child(here, *number)?;
        }
        Some(here)
    }

    /// Changes what stands at the node of that number. A refusal leaves what the table shows as it is.
    pub(crate) fn change(&mut self, number: NodeNumber, change: Change) -> Result<(), OutOfMemory>
        requires within { number.0 < length self.old }
        requires rises { (node : code.Node) → slice_get self.old number.0 ≡ Some node
            → CanApply node change }
        ensures changed { IfOk result (λ _. IsApplied number.0 self.old change self.new) }
        ensures few { length self.new < 2 ^ 64 }
        ensures alike { IfErr result (λ _. AreAlike self.old self.new) }
        ensures unchanged { IfErr result (λ _. (names : List (List ℕ))
            → shown_from names 0 self.new ≡ shown_from names 0 self.old) }
    {
        apply(&mut self.nodes, number.0, change)
    }

    /// The number of the child of that number.
    fn child(&self, parent: NodeNumber, number: usize) -> Option<NodeNumber>
        requires { parent.0 < length self.now }
        ensures number { option_map (λ n. n.0) result ≡ child_number self.now parent.0 number }
        ensures within { IfSome result (λ n. n.0 < length self.now) }
    {
        match self.node(parent) {
            Node::Split { visit: _, children } => children.nth(number),
            Node::Ready(_) | Node::Waiting { .. } | Node::Ended(_) => None,
        }
    }
}

/// Changes what stands at the node of that number. A refusal leaves what the nodes show as it is.
fn apply(nodes: &mut Vec<Node>, number: usize, change: Change) -> Result<(), OutOfMemory>
    requires within { number < length nodes.old.items }
    requires rises { (node : code.Node) → slice_get nodes.old.items number ≡ Some node
        → CanApply node change }
    ensures changed { IfOk result (λ _. IsWritten number nodes.old.items change nodes.new.items) }
    ensures unchanged { IfErr result (λ _. AreAlike nodes.old.items nodes.new.items) }
{
    let alloc = *nodes.allocator();
    match change {
        Change::Enter(visit) => nodes[number] = Node::Ready(visit),
        Change::End(outcome) => nodes[number] = Node::Ended(outcome),
        Change::Ask(payload) => nodes[number].wait(alloc, payload),
        Change::SplitInto(visits) => {
            let children = add(nodes, visits)?;
            nodes[number].split(alloc, children);
        }
        Change::Retry(retrier) => nodes[number].retry(alloc, retrier)?,
    }
    Ok(())
}

/// Adds a node for each state that is about to be entered. A refusal adds none.
fn add(nodes: &mut Vec<Node>, visits: Vec<Visit>) -> Result<Children, OutOfMemory>
    ensures first { IfOk result (λ children. children.first.0 ≡ length nodes.old.items) }
    ensures count { IfOk result (λ children. children.count ≡ length visits.items) }
    ensures added { IfOk result
        (λ _. nodes.new.items ≡ nodes.old.items ++ map variants.Ready visits.items) }
    ensures none { IfErr result (λ _. nodes.new.items ≡ nodes.old.items) }
{
    let children = Children {
        first: NodeNumber(nodes.len()),
        count: visits.len(),
    };
    nodes.reserve(children.count)?;
    for visit in visits {
        nodes.push_reserved(Node::Ready(visit));
    }
    Ok(children)
}

impl Children {
    /// The number of the child of that number; none where there are fewer.
    fn nth(self, number: usize) -> Option<NodeNumber>
        requires { self.first.0 + self.count < 2 ^ 64 }
        ensures { option_map (λ n. n.0) result ≡ number_in_range (Some self) number }
    {
        if number < self.count {
            Some(NodeNumber(self.first.0 + number))
        } else {
            None
        }
    }
}
