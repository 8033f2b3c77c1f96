//! One step at one place (States Language, "State Types", "Errors").

ghost use Rattle.std.specs.Prelude.{◌≡◌, List, IfOk, IfSome, None};
ghost use Rattle.asl_model.specs.Run as model;
ghost use Rattle.asl_run.specs.Acting.{DoesNothing, HasNoVisit, IsFoundIn, IsVisitOf, Plans, PlansAs};
ghost use Rattle.asl_run.specs.Acting.{action_of, by_settings, moves_at, names_at};
ghost use Rattle.asl_run.specs.Nodes.{AreHeads};
ghost use Rattle.asl_run.specs.Standing.{children_of};

use crate::entering::enter;
use crate::entries::Answer;
use crate::failing::in_trouble;
use crate::joining::join;
use crate::leaving::finish;
use crate::nodes::Node;
use crate::planning::{Here, Plan};
use asl_machine_table::Machine;
use asl_processing::{Data, Visit};
use asl_tree::OutOfMemory;
use std::alloc::Global;

impl<'h, 'm> Here<'h, 'm> {
    /// The execution that stands in the node at that place with its state, which is found in the machine by its number;
    /// none where the scope has ended.
    pub(crate) fn find(
        alloc: Global,
        machine: &'m Machine,
        at: &'h [usize],
        node: &'h Node,
    ) -> Option<Here<'h, 'm>>
        ensures found { IfSome result (IsFoundIn node.now) }
        ensures machine { IfSome result (λ here. here.machine.now ≡ machine.now) }
        ensures place { IfSome result (λ here. here.at.now ≡ at.now) }
        ensures missing { result ≡ None → DoesNothing machine.now node.now }
    {
        let visit = visit_of(node)?;
        let name = machine.name(visit.state)?;
        let state = machine.state(visit.state)?;
        Some(Here {
            alloc,
            machine,
            at,
            name,
            state,
            visit,
        })
    }

    /// What is to be done where that execution stands, in that node over these children; none where the answer, or
    /// without one a move, isn't enabled there. Nothing is changed yet.
    pub(crate) fn act(
        &self,
        answer: Option<&Answer>,
        node: &Node,
        children: &[Node],
    ) -> Result<Option<Plan<'m>>, OutOfMemory>
        ensures { IfOk result (λ plan. (below : List model.Activity)
            → AreHeads (names_at self.now) children.now below
            → PlansAs self.now plan (moves_at self.now (children_of below) node.now
            (action_of answer.entry))) }
    {
        match (answer, node) {
            (None, Node::Ready(_)) => Ok(Some(enter(self)?)),
            (None, Node::Split { .. }) => join(self, children),
            (None, Node::Waiting { .. } | Node::Ended(_)) => Ok(None),
            (Some(Answer::Gives(value)), Node::Waiting { .. }) => {
                Ok(Some(finish(self, Data::Shared(value))?))
            }
            (Some(Answer::Fails { error, cause }), Node::Waiting { .. }) => {
                Ok(Some(fail(self, error, cause)?))
            }
            (Some(_), Node::Ready(_) | Node::Split { .. } | Node::Ended(_)) => Ok(None),
        }
    }
}

/// The execution of a state that stands there; none where the scope has ended.
fn visit_of(node: &Node) -> Option<&Visit>
    ensures found { IfSome result (λ visit. IsVisitOf node.now visit.now) }
    ensures missing { result ≡ None → HasNoVisit node.now }
{
    match node {
        Node::Ready(visit) => Some(visit),
        Node::Waiting { visit, payload: _ } => Some(visit),
        Node::Split { visit, children: _ } => Some(visit),
        Node::Ended(_) => None,
    }
}

/// The Task's task has failed: the state is in trouble.
fn fail<'m>(here: &Here<'_, 'm>, error: &str, cause: &str) -> Result<Plan<'m>, OutOfMemory>
    ensures { IfOk result (λ plan. Plans here.now plan
        (model.entry_then (model.TaskFailed here.now.name.now error.now cause.now)
        (by_settings model.troubled here.now error.now cause.now))) }
{
    let plan = in_trouble(here, error, cause)?;
    plan.after(here.task_failed(error, cause))
}
