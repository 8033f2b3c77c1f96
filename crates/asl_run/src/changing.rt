//! What a step does to what stands at its place.

ghost use Rattle.std.specs.Prelude.{◌≡◌, ℕ, None, Some, IfOk, IfErr};
ghost use Rattle.asl_run.specs.Changing.{children_in, IsAlike, visit_in};
ghost use Rattle.asl_processing.specs.Activities.{IsRaised};
ghost use Rattle.asl_run.specs.Nodes.{range_of};
ghost use Rattle.asl_processing.specs.Troubles.{CanRise};
ghost use Rattle.asl_processing.specs.declared.activities.Visit.{Visit};
ghost use Rattle.asl_run.specs.declared.nodes.Children as nodes;
ghost use Rattle.asl_run.specs.declared.nodes.Node.TheVariants as variants;

use crate::entries::Outcome;
use crate::nodes::{Children, Node};
use asl_processing::{Datum, Visit};
use asl_tree::OutOfMemory;
use std::alloc::Global;
use std::mem;

/// What a step does at its place.
#[derive(Drop)]
pub(crate) enum Change {
    /// The state of that execution is about to be entered.
    Enter(Visit),
    /// The scope ends so.
    End(Outcome),
    /// A Task waits for the answer to this payload.
    Ask(Datum),
    /// A Parallel or a Map has these children, each about to enter its state.
    SplitInto(Vec<Visit>),
    /// The retrier of that number retries: the state is Ready again, that count one higher.
    Retry(usize),
}

impl Change {
    /// How many children it adds.
    pub(crate) fn children(&self) -> usize
        ensures { result ≡ children_in self.now }
    {
        match self {
            Change::SplitInto(visits) => visits.len(),
            Change::Enter(_) | Change::End(_) | Change::Ask(_) | Change::Retry(_) => 0,
        }
    }
}

impl Node {
    /// Its task waits for the answer to that payload.
    pub(crate) fn wait(&mut self, alloc: Global, payload: Datum)
        ensures waits { (visit : Visit) → visit_in self.old ≡ Some visit
            → self.new ≡ variants.Waiting visit payload }
        ensures alone { range_of self.new ≡ None }
    {
        if let Some(visit) = self.take_visit(alloc) {
            *self = Node::Waiting { visit, payload };
        }
    }

    /// It has these children.
    pub(crate) fn split(&mut self, alloc: Global, children: Children)
        ensures splits { (visit : Visit) → visit_in self.old ≡ Some visit
            → self.new ≡ variants.Split visit children }
        ensures no_others { (others : nodes.Children) → range_of self.new ≡ Some others
            → others ≡ children }
    {
        if let Some(visit) = self.take_visit(alloc) {
            *self = Node::Split { visit, children };
        }
    }

    /// Its state is about to be entered again, the count of the retrier of that number one higher. A refusal leaves
    /// what stands there as it is.
    pub(crate) fn retry(&mut self, alloc: Global, retrier: usize) -> Result<(), OutOfMemory>
        requires { (visit : Visit) → visit_in self.old ≡ Some visit
            → CanRise visit.counts.items retrier }
        ensures retries { IfOk result (λ _. (visit : Visit) → visit_in self.old ≡ Some visit
            → (after : Visit) × (self.new ≡ variants.Ready after) × IsRaised retrier visit after) }
        ensures alone { IfOk result (λ _. range_of self.new ≡ None) }
        ensures unchanged { IfErr result (λ _. IsAlike self.old self.new) }
    {
        self.raise(retrier)?;
        if let Some(visit) = self.take_visit(alloc) {
            *self = Node::Ready(visit);
        }
        Ok(())
    }

    /// Takes the execution of a state out of the node, which isn't to be used before another one is put there; none
    /// where a scope has ended.
    fn take_visit(&mut self, alloc: Global) -> Option<Visit>
        ensures visit { result ≡ visit_in self.old }
        ensures alone { range_of self.new ≡ None }
    {
        let nothing = Outcome::Failed {
            error: String::new(alloc),
            cause: String::new(alloc),
        };
        match mem::replace(self, Node::Ended(nothing)) {
            Node::Ready(visit) => Some(visit),
            Node::Waiting { visit, payload: _ } => Some(visit),
            Node::Split { visit, children: _ } => Some(visit),
            Node::Ended(_) => None,
        }
    }

    /// Raises the count of the retrier of that number by one. A refusal leaves the node as it is.
    fn raise(&mut self, retrier: usize) -> Result<(), OutOfMemory>
        requires { (visit : Visit) → visit_in self.old ≡ Some visit
            → CanRise visit.counts.items retrier }
        ensures raised { IfOk result (λ _. (visit : Visit) → visit_in self.old ≡ Some visit
            → (after : Visit) × (visit_in self.new ≡ Some after) × IsRaised retrier visit after) }
        ensures unchanged { IfErr result (λ _. IsAlike self.old self.new) }
    {
        match self {
            Node::Ready(visit) => visit.raise(retrier),
            Node::Waiting { visit, payload: _ } => visit.raise(retrier),
            Node::Split { visit, children: _ } => visit.raise(retrier),
            Node::Ended(_) => Ok(()),
        }
    }
}
