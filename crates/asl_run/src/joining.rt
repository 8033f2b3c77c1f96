//! Joining the children of a Parallel or a Map (States Language, "Parallel State", "Map State").

ghost use Rattle.std.specs.Prelude.{◌≡◌, ◌++◌, ℕ, List, IfOk, map, option_map};
ghost use Rattle.std.specs.Option.{option_to_list};
ghost use Rattle.asl_states.specs.Machine.{kind_view};
ghost use Rattle.asl_model.specs.Run as model;
ghost use Rattle.asl_run.specs.Acting.{Plans, PlansAs, by_settings, by_state, names_at};
ghost use Rattle.asl_run.specs.Joining.{failure_in, far_view, output_in, outputs_among, without_outputs};
ghost use Rattle.asl_run.specs.Nodes.{AreHeads, shown_over};
ghost use Rattle.asl_run.specs.Standing.{children_of};
ghost use Rattle.asl_tree.specs.View.{view};

use crate::enabling::has_ended;
use crate::entries::Outcome;
use crate::failing::in_trouble;
use crate::leaving::finish;
use crate::nodes::Node;
use crate::planning::{Here, Plan};
use asl_processing::Data;
use asl_states::Kind;
use asl_tree::{OutOfMemory, Tree, copy};
use std::alloc::Global;

/// How far the children of a Split are.
#[derive(Drop)]
enum Far<'c> {
    /// All are done.
    AllDone,
    /// Some failed: the least number of those, its error and its cause.
    OneFailed {
        child: usize,
        error: &'c str,
        cause: &'c str,
    },
    StillRunning,
}

/// The state's children are joined; none where they aren't far enough.
#[tactic(auto, using(crate::proofs::Joined::joined_all, crate::proofs::Joined::joined_failed, crate::proofs::Joined::not_joined,))]
pub(crate) fn join<'m>(
    here: &Here<'_, 'm>,
    children: &[Node],
) -> Result<Option<Plan<'m>>, OutOfMemory>
    ensures { IfOk result (λ plan. (below : List model.Activity)
        → AreHeads (names_at here.now) children.now below
        → PlansAs here.now plan
        (by_state model.joins here.now (model.joining 0 (children_of below)))) }
{
    match how_far(children) {
        Far::AllDone => {
            let outputs = outputs_of(here.alloc, children)?;
            let finished = finish(here, Data::Made(Tree::List(outputs)))?;
            Ok(Some(finished))
        }
        Far::OneFailed {
            child,
            error,
            cause,
        } => {
            let broken_off = break_off(here, child, error, cause)?;
            Ok(Some(broken_off))
        }
        Far::StillRunning => Ok(None),
    }
}

/// Its child of that number has failed: the state is in trouble.
fn break_off<'m>(
    here: &Here<'_, 'm>,
    child: usize,
    error: &str,
    cause: &str,
) -> Result<Plan<'m>, OutOfMemory>
    ensures { IfOk result (λ plan. Plans here.now plan
        (model.entry_then (model.BranchFailed here.now.name.now child error.now cause.now)
        (by_settings model.troubled here.now
        (model.join_error (kind_view here.now.state.now.kind) error.now) cause.now))) }
{
    let plan = in_trouble(here, join_error(&here.state.kind, error), cause)?;
    plan.after(here.branch_failed(child, error, cause))
}

/// The error of a state of that type of which a child failed: `States.BranchFailed` for a Parallel, the child's for a
/// Map.
fn join_error<'e>(kind: &Kind, error: &'e str) -> &'e str
    ensures { result.now ≡ model.join_error (kind_view kind.now) error.now }
{
    match kind {
        Kind::Parallel { .. } => "States.BranchFailed",
        Kind::Pass { .. }
        | Kind::Task { .. }
        | Kind::Choice { .. }
        | Kind::Wait { .. }
        | Kind::Succeed
        | Kind::Fail { .. }
        | Kind::Map { .. } => error,
    }
}

/// How far the children are.
fn how_far(children: &[Node]) -> Far<'_>
    ensures { (names : List (List ℕ)) (below : List model.Activity)
        → AreHeads names children.now below
        → far_view result ≡ without_outputs (model.joining 0 (children_of below)) }
{
    let mut all_ended = true;
    for (number, child) in children.iter().enumerate() {
        if let Some((error, cause)) = failure_of(child) {
            return Far::OneFailed {
                child: number,
                error,
                cause,
            };
        }
        all_ended &= has_ended(child);
    }
    if all_ended {
        Far::AllDone
    } else {
        Far::StillRunning
    }
}

/// The error and the cause with which a scope has ended there, if it has failed.
fn failure_of(node: &Node) -> Option<(&str, &str)>
    ensures { (names : List (List ℕ)) (below : model.Activities)
        → option_map (λ f. (f.0.now, f.1.now)) result
        ≡ failure_in (shown_over names below node.now) }
{
    match node {
        Node::Ended(Outcome::Failed { error, cause }) => Some((error, cause)),
        Node::Ready(_)
        | Node::Waiting { .. }
        | Node::Split { .. }
        | Node::Ended(Outcome::Output(_)) => None,
    }
}

/// The outputs of the children that are done, in order.
#[tactic(auto, using(crate::proofs::Joined::all_out, crate::proofs::Joined::one_out))]
fn outputs_of(alloc: Global, children: &[Node]) -> Result<Vec<Tree>, OutOfMemory>
    ensures { IfOk result (λ v. (names : List (List ℕ)) (below : List model.Activity)
        → AreHeads names children.now below → map view v.items ≡ outputs_among below) }
{
    let mut outputs = Vec::with_capacity(alloc, children.len())?;
    for child in children {
        add_output(alloc, child, &mut outputs)?;
    }
    Ok(outputs)
}

/// Adds the output of a scope that is done there to those of others.
#[tactic(auto, using(crate::proofs::Joined::none_added, crate::proofs::Joined::one_added))]
fn add_output(alloc: Global, node: &Node, outputs: &mut Vec<Tree>) -> Result<(), OutOfMemory>
    ensures { IfOk result (λ _. (names : List (List ℕ)) (below : model.Activities)
        → map view outputs.new.items ≡ map view outputs.old.items
        ++ option_to_list (output_in (shown_over names below node.now))) }
{
    if let Some(output) = output_of(node) {
        let output = copy(alloc, output)?;
        outputs.push(output)?;
    }
    Ok(())
}

/// The output of a scope that is done there.
fn output_of(node: &Node) -> Option<&Tree>
    ensures { (names : List (List ℕ)) (below : model.Activities)
        → option_map (λ t. view t.now) result ≡ output_in (shown_over names below node.now) }
{
    match node {
        Node::Ended(Outcome::Output(output)) => Some(output),
        Node::Ready(_)
        | Node::Waiting { .. }
        | Node::Split { .. }
        | Node::Ended(Outcome::Failed { .. }) => None,
    }
}
