//! One step of a run: an event at a place.

ghost use Rattle.std.specs.Prelude.{◌≡◌, ◌<◌, ◌↔◌, IfOk, IsTrue, List, length, Some, ℕ};
ghost use Rattle.asl_model.specs.Run as model;
ghost use Rattle.asl_model.specs.Run.{want_of};
ghost use Rattle.asl_run.specs.Counting.{open_count};
ghost use Rattle.asl_run.specs.Enabling.{wanted_by};
ghost use Rattle.asl_run.specs.Nodes.{AreHeads, shown_at, shown_over};
ghost use Rattle.asl_run.specs.Standing.{children_of};
ghost use Rattle.asl_run.specs.Acting.{action_of};
ghost use Rattle.asl_run.specs.Stepping.{IsPlanned, StepsAt};

use crate::enabling::wanted_by;
use crate::entries::{Answer, Entry, Want};
use crate::nodes::{Node, NodeNumber, Nodes};
use crate::planning::{Here, Plan};
use crate::standing::Standing;
use asl_machine_table::Machine;
use asl_tree::OutOfMemory;
use std::alloc::Global;

/// Why an event can't be taken. The run stays as it was.
#[derive(Clone, Copy, Debug, Drop)]
pub enum StepRefusal {
    /// Nothing stands at the event's place.
    NoSuchPlace,
    /// What stands there doesn't want such an event.
    NotEnabled,
    /// An allocation was refused.
    OutOfMemory,
}

/// The step at that place, from the machine's own on, and its entries: a task's answer is taken, or, without one, a move.
pub(crate) fn take_step<'m>(
    alloc: Global,
    machine: &'m Machine,
    at: &[usize],
    answer: Option<&Answer>,
    standing: &mut Standing,
) -> Result<Vec<Entry<'m>>, StepRefusal>
    ensures { StepsAt machine.now at.now (action_of answer.entry) standing.old standing.new result }
{
    let nodes = standing.nodes();
    let Some(number) = nodes.number_at(at) else {
        return Err(StepRefusal::NoSuchPlace);
    };
    let Plan { entries, change } = match plan_at(alloc, machine, at, answer, nodes, number) {
        Ok(plan) => plan,
        Err(refusal) => return Err(refusal),
    };
    match standing.change(at, number, change) {
        Ok(()) => Ok(entries),
        Err(OutOfMemory) => Err(StepRefusal::OutOfMemory),
    }
}

/// What is to be done at the node of that number, which stands at that place. That it wants such an event is known before
/// anything is made.
fn plan_at<'m>(
    alloc: Global,
    machine: &'m Machine,
    at: &[usize],
    answer: Option<&Answer>,
    nodes: &Nodes,
    number: NodeNumber,
) -> Result<Plan<'m>, StepRefusal>
    requires { number.0 < length nodes.now }
    ensures planned { IsPlanned machine.now at.now (action_of answer.entry) nodes.now number.0
        result }
    ensures wanted { IfOk result
        (λ _. (names : List (List ℕ)) → 0 < open_count (shown_at names nodes.now number.0)) }
{
    let node = nodes.node(number);
    let children = nodes.children(node);
    if !is_wanted(answer, node, children) {
        return Err(StepRefusal::NotEnabled);
    }
    let Some(here) = Here::find(alloc, machine, at, node) else {
        return Err(StepRefusal::NotEnabled);
    };
    match here.act(answer, node, children) {
        Ok(Some(plan)) => Ok(plan),
        Ok(None) => Err(StepRefusal::NotEnabled),
        Err(OutOfMemory) => Err(StepRefusal::OutOfMemory),
    }
}

/// Whether the node with these children wants such an event.
#[tactic(auto, using(crate::proofs::StepsHere::wants_move, crate::proofs::StepsHere::wants_answer, crate::proofs::StepsHere::wants_none,))]
fn is_wanted(answer: Option<&Answer>, node: &Node, children: &[Node]) -> bool
    ensures { (names : List (List ℕ)) (below : List model.Activity)
        → AreHeads names children.now below
        → IsTrue result ↔ (wanted_by (shown_over names (children_of below) node.now)
        ≡ Some (want_of (action_of answer.entry))) }
{
    match wanted_by(node, children) {
        Some(Want::Move) => answer.is_none(),
        Some(Want::Answer) => answer.is_some(),
        None => false,
    }
}
