//! What stands at the places of a run, and how many of them want an event.

ghost use Rattle.std.specs.Vec.{vec_capacity};
ghost use Rattle.std.specs.Prelude.{◌+◌, ◌<◌, ◌≤◌, ◌≡◌, ◌∷◌, ◌^◌, [], IfErr, IfOk, IfSome, List, length, slice_get, Some, true, false, ℕ};
ghost use Rattle.asl_run.specs.Changing.{AreAlike, CanApply, IsApplied};
ghost use Rattle.asl_run.specs.Counting.{CanPass, HasParent, IsBegun, IsBehindRunning, IsFirstRunning, IsFurther, IsGoing, IsOpenAt, IsPassed, is_joinable_so, of_new, open_count, own_count_of};
ghost use Rattle.asl_run.specs.Nodes.{HasRange, IsBegunWith, number_from, shown_at, shown_from};
ghost use Rattle.asl_run.specs.declared.nodes.Node as code;
ghost use Rattle.asl_run.specs.declared.nodes.Node.TheVariants as variants;

use crate::changing::Change;
use crate::enabling::{count_places, has_ended, has_failed};
use crate::entries::Place;
use crate::nodes::{Children, Node, NodeNumber, Nodes};
use asl_tree::{OutOfMemory, Tree};
use std::alloc::Global;
use std::marker::Model;

/// How far the children of a node are.
#[derive(Clone, Copy, Drop)]
pub(crate) struct Progress {
    /// A child has failed.
    failed: bool,
    /// All children before this one have ended.
    first: usize,
    /// This one and all behind it have ended.
    behind_last: usize,
}

impl Progress {
    /// So many children are about to enter their states.
    fn of_new(count: usize) -> Progress
        ensures { result ≡ of_new count }
    {
        Progress {
            failed: false,
            first: 0,
            behind_last: count,
        }
    }

    /// The children are far enough for the move of their Parallel or Map: one has failed, or all have ended.
    fn is_joinable(self) -> bool
        ensures { result ≡ is_joinable_so self }
    {
        self.failed || self.behind_last <= self.first
    }
}

/// What stands at the places of a run, with how far the children of each are.
#[derive(Drop)]
pub(crate) struct Standing {
    nodes: Nodes,
    /// Of each node how far its children are.
    progress: Vec<Progress>,
    /// How many places want an event.
    open_count: usize,
}

impl Model for Standing {
    ghost use Rattle.std.specs.Prelude.{List};
    ghost use Rattle.asl_run.specs.Counting.{IsKept};
    ghost use Rattle.asl_run.specs.declared.nodes.Node as code;
    ghost use Rattle.asl_tree.specs.contracts.Tree as trees;
    ghost use Rattle.std.specs.Coded.{codes};

    ghost Value = { List code.Node };

    ghost coded = { Prim.hlevel (codes, trees.the_row.coded) };

    ghost view = { λ standing. standing.nodes };

    ghost invariant = { λ standing. IsKept standing.nodes standing.progress.items standing.open_count };
}

impl Standing {
    /// The state of that number at the machine's own place, about to be entered with that raw input. A refusal, which
    /// is out of memory, gives the input back.
    pub(crate) fn new(alloc: Global, state: usize, input: Tree) -> Result<Standing, Tree>
        ensures node { IfOk result (λ standing. IsBegunWith state input standing) }
        ensures returned { IfErr result (λ back. back ≡ input) }
    {
        let Ok(mut progress) = Vec::with_capacity(alloc, 1) else {
            return Err(input);
        };
        progress.push_reserved(Progress::of_new(0));
        let nodes = Nodes::new(alloc, state, input)?;
        Ok(Standing {
            nodes,
            progress,
            open_count: 1,
        })
    }

    /// What stands at the places.
    pub(crate) fn nodes(&self) -> &Nodes
        ensures { result.now ≡ self.now }
    {
        &self.nodes
    }

    /// How many places want an event.
    pub(crate) fn open_count(&self) -> usize
        ensures { (names : List (List ℕ)) → result ≡ open_count (shown_at names self.now 0) }
    {
        self.open_count
    }

    /// Changes what stands at that place, at the node of that number, which wants an event. A refusal leaves what
    /// is shown as it is.
    pub(crate) fn change(
        &mut self,
        place: &[usize],
        number: NodeNumber,
        change: Change,
    ) -> Result<(), OutOfMemory>
        requires at { number_from self.old 0 place.now ≡ Some number.0 }
        requires wanted { (names : List (List ℕ))
            → 0 < open_count (shown_at names self.old number.0) }
        requires rises { (node : code.Node) → slice_get self.old number.0 ≡ Some node
            → CanApply node change }
        ensures changed { IfOk result (λ _. IsApplied number.0 self.old change self.new) }
        ensures unchanged { IfErr result (λ _. (names : List (List ℕ))
            → shown_from names 0 self.new ≡ shown_from names 0 self.old) }
    {
        let added = change.children();
        self.progress.reserve(added)?;
        let parent = parent_of(&self.nodes, place);
        let closed = count_places(&self.nodes, number) + own_place(&self.progress, parent);
        self.nodes.change(number, change)?;
        note_children(&mut self.progress, number, added);
        note_end(&self.nodes, &mut self.progress, parent, number);
        let opened = count_places(&self.nodes, number) + own_place(&self.progress, parent);
        self.open_count = self.open_count - closed + opened;
        Ok(())
    }

    /// The first place that wants an event, of a run that hasn't ended: a place comes before those below it.
    pub(crate) fn first_open(&self, alloc: Global) -> Result<Place, OutOfMemory>
        requires goes_on { IsGoing self.now }
        ensures { IfOk result (λ place. IsOpenAt self.now 0 place.items) }
    {
        let mut place = Vec::new(alloc);
        let mut here = self.nodes.root();
        while let Node::Split { visit: _, children } = self.nodes.node(here) {
            let progress = self.progress[here.0];
            if progress.is_joinable() {
                return Ok(place);
            }
            place.push(progress.first)?;
            here = NodeNumber(children.first.0 + progress.first);
        }
        Ok(place)
    }

    /// The last place that wants an event, of a run that hasn't ended.
    pub(crate) fn last_open(&self, alloc: Global) -> Result<Place, OutOfMemory>
        requires goes_on { IsGoing self.now }
        ensures { IfOk result (λ place. (names : List (List ℕ)) (last : ℕ)
            → last + 1 ≡ open_count (shown_at names self.now 0)
            → IsOpenAt self.now last place.items) }
    {
        let mut place = Vec::new(alloc);
        let mut here = self.nodes.root();
        while let Node::Split { visit: _, children } = self.nodes.node(here) {
            let progress = self.progress[here.0];
            if progress.behind_last <= progress.first {
                return Ok(place);
            }
            let last = progress.behind_last - 1;
            place.push(last)?;
            here = NodeNumber(children.first.0 + last);
        }
        Ok(place)
    }
}

/// The number of the node whose child stands at that place; none for the machine's own place.
#[tactic(auto, using(crate::proofs::Parents::parent_found))]
fn parent_of(nodes: &Nodes, place: &[usize]) -> Option<NodeNumber>
    ensures { (child : ℕ) → number_from nodes.now 0 place.now ≡ Some child
        → HasParent nodes.now place.now child result }
{
    match place.split_last() {
        Some((_, above)) => nodes.number_at(above),
        None => None,
    }
}

/// 1 where the children of that node are far enough for its move, 0 where they aren't or there is no such node.
fn own_place(progress: &[Progress], number: Option<NodeNumber>) -> usize
    requires { IfSome number (λ n. n.0 < length progress.now) }
    ensures { result ≡ own_count_of progress.now number }
{
    match number {
        Some(number) => usize::from(progress[number.0].is_joinable()),
        None => 0,
    }
}

/// Notes that the node of that number has so many children, which have just been added.
fn note_children(progress: &mut Vec<Progress>, number: NodeNumber, added: usize)
    requires within { number.0 < length progress.old.items }
    requires room { length progress.old.items + added ≤ vec_capacity progress.old }
    ensures { IsBegun number.0 added added progress.old.items progress.new.items }
{
    progress[number.0] = Progress::of_new(added);
    for _child in 0..added {
        progress.push_reserved(Progress::of_new(0));
    }
}

/// Notes at the parent that the node of that number may have ended.
fn note_end(
    nodes: &Nodes,
    progress: &mut Vec<Progress>,
    parent: Option<NodeNumber>,
    number: NodeNumber,
)
    requires { CanPass nodes.now progress.old.items parent number.0 }
    ensures { IsPassed nodes.now parent number.0 progress.old.items progress.new.items }
{
    if let Some(parent) = parent {
        if let Node::Split { visit: _, children } = nodes.node(parent) {
            let far = progress[parent.0];
            progress[parent.0] = further(nodes, *children, far, number);
        }
    }
}

/// How far the children are, where the node of that number may have ended.
fn further(nodes: &Nodes, children: Children, far: Progress, number: NodeNumber) -> Progress
    requires range { HasRange nodes.now children }
    requires inside { far.behind_last ≤ children.count }
    requires within { number.0 < length nodes.now }
    ensures { IsFurther nodes.now children number.0 far result }
{
    let first = first_running(nodes, children, far.first, far.behind_last);
    Progress {
        failed: far.failed || has_failed(nodes.node(number)),
        first,
        behind_last: behind_running(nodes, children, first, far.behind_last),
    }
}

/// The number of the first child that hasn't ended, of those from one on and before another; behind these if each has.
fn first_running(nodes: &Nodes, children: Children, first: usize, behind: usize) -> usize
    requires range { HasRange nodes.now children }
    requires inside { behind ≤ children.count }
    ensures { IsFirstRunning nodes.now children first behind result }
{
    let mut found = first;
    while found < behind && has_ended(nodes.node(NodeNumber(children.first.0 + found))) {
        found += 1;
    }
    found
}

/// The number behind the last child that hasn't ended, of those from one on and before another; before these if
/// each has.
fn behind_running(nodes: &Nodes, children: Children, first: usize, behind: usize) -> usize
    requires range { HasRange nodes.now children }
    requires inside { behind ≤ children.count }
    ensures { IsBehindRunning nodes.now children first behind result }
{
    let mut found = behind;
    while first < found && has_ended(nodes.node(NodeNumber(children.first.0 + (found - 1)))) {
        found -= 1;
    }
    found
}
