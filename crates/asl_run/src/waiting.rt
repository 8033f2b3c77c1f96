//! The task that waits at a place of a run.

ghost use Rattle.std.specs.Prelude.{IfSome, IfNone};
ghost use Rattle.asl_machine_table.specs.Table.{scope_in};
ghost use Rattle.asl_run.specs.Nodes.{shown_at};
ghost use Rattle.asl_run.specs.Standing.{StandsIn};
ghost use Rattle.asl_run.specs.Waiting.{NoneWaitsAt, WaitsAt};

use crate::nodes::{Node, Nodes};
use asl_machine_table::Machine;
use asl_tree::Tree;

/// A task that waits: the number and the name of its state, and the payload that it was asked with.
#[derive(Drop)]
pub(crate) struct Asked<'r> {
    pub(crate) state: usize,
    pub(crate) name: &'r str,
    pub(crate) payload: &'r Tree,
}

/// The task that waits at a place of a run of that machine; none where none waits there.
pub(crate) fn waiting_at<'r>(
    machine: &'r Machine,
    nodes: &'r Nodes,
    place: &[usize],
) -> Option<Asked<'r>>
    ensures found { IfSome result (λ asked. let names = machine.now.names in
        WaitsAt names place.now (shown_at names nodes.now 0) asked) }
    ensures none { let a = shown_at machine.now.names nodes.now 0 in
        StandsIn a (scope_in machine.now) → IfNone result (NoneWaitsAt place.now a) }
{
    machine.is_shown();
    let number = nodes.number_at(place)?;
    match nodes.node(number) {
        Node::Waiting { visit, payload } => Some(Asked {
            state: visit.state,
            name: machine.name(visit.state)?,
            payload,
        }),
        Node::Ready(_) | Node::Split { .. } | Node::Ended(_) => None,
    }
}
