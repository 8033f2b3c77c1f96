//! The places of a run where an event is wanted.

ghost use Rattle.std.specs.Prelude.{◌≡◌, ◌<◌, ◌^◌, ℕ, List, length, map, option_map, IfOk};
ghost use Rattle.asl_model.specs.Run.{Activities, Activity, joining};
ghost use Rattle.asl_run.specs.Counting.{open_below_count, open_count};
ghost use Rattle.asl_run.specs.Enabling as model;
ghost use Rattle.asl_run.specs.Enabling.{AddsOwn, AddsPlaces, AddsPlacesBelow, found_view};
ghost use Rattle.asl_run.specs.Entries.{want_view};
ghost use Rattle.asl_run.specs.Nodes.{AreHeads, HasRange, shown_at, shown_over};
ghost use Rattle.asl_run.specs.Standing.{children_of};

use crate::entries::{Outcome, Place, Want};
use crate::nodes::{Children, Node, NodeNumber, Nodes};
use asl_tree::OutOfMemory;
use std::alloc::Global;

/// The kind of event that the node itself wants, over these children, if any.
#[tactic(auto, using(crate::proofs::Joinable::joinable_wants, crate::proofs::Joinable::waiting_wants,))]
pub(crate) fn wanted_by(node: &Node, children: &[Node]) -> Option<Want>
    ensures { (names : List (List ℕ)) (below : List Activity) → AreHeads names children.now below
        → option_map want_view result
        ≡ model.wanted_by (shown_over names (children_of below) node.now) }
{
    match node {
        Node::Ready(_) => Some(Want::Move),
        Node::Waiting { .. } => Some(Want::Answer),
        Node::Split { .. } => {
            if is_joinable(children) {
                Some(Want::Move)
            } else {
                None
            }
        }
        Node::Ended(_) => None,
    }
}

/// Whether the children of a Parallel or a Map are far enough for its move: one has failed, or all have ended.
fn is_joinable(children: &[Node]) -> bool
    ensures { (names : List (List ℕ)) (below : List Activity) → AreHeads names children.now below
        → result ≡ model.is_joinable (joining 0 (children_of below)) }
{
    let mut all_ended = true;
    for child in children {
        if has_failed(child) {
            return true;
        }
        all_ended &= has_ended(child);
    }
    all_ended
}

/// Whether a scope has ended there with an error.
pub(crate) fn has_failed(node: &Node) -> bool
    ensures { (names : List (List ℕ)) (below : Activities)
        → result ≡ model.has_failed (shown_over names below node.now) }
{
    matches!(node, Node::Ended(Outcome::Failed { .. }))
}

/// Whether a scope has ended there.
pub(crate) fn has_ended(node: &Node) -> bool
    ensures { (names : List (List ℕ)) (below : Activities)
        → result ≡ model.has_ended (shown_over names below node.now) }
{
    matches!(node, Node::Ended(_))
}

/// Adds the places where an event is wanted at the node of that number, which stands at that place, or below it to
/// those that were found, a place before those below it.
#[cycle(add_places)]
pub(crate) fn add_places(
    alloc: Global,
    nodes: &Nodes,
    number: NodeNumber,
    place: &mut Place,
    found: &mut Vec<(Place, Want)>,
) -> Result<(), OutOfMemory>
    requires { number.0 < length nodes.now }
    ensures added { IfOk result (λ _. AddsPlaces nodes.now number.0 place.old.items
        (map found_view found.old.items) (map found_view found.new.items)) }
    ensures place { IfOk result (λ _. place.new.items ≡ place.old.items) }
{
    let node = nodes.node(number);
    add_own_place(alloc, node, nodes.children(node), place, found)?;
    match node {
        Node::Split { visit: _, children } => {
            add_places_below(alloc, nodes, *children, place, found)
        }
        Node::Ready(_) | Node::Waiting { .. } | Node::Ended(_) => Ok(()),
    }
}

/// Adds the places of these children of the node at that place.
#[cycle(add_places)]
fn add_places_below(
    alloc: Global,
    nodes: &Nodes,
    children: Children,
    place: &mut Place,
    found: &mut Vec<(Place, Want)>,
) -> Result<(), OutOfMemory>
    requires { HasRange nodes.now children }
    ensures added { IfOk result (λ _. AddsPlacesBelow nodes.now children place.old.items
        (map found_view found.old.items) (map found_view found.new.items)) }
    ensures place { IfOk result (λ _. place.new.items ≡ place.old.items) }
{
    for number in 0..children.count {
        place.push(number)?;
        let child = NodeNumber(children.first.0 + number);
        add_places(alloc, nodes, child, place, found)?;
        let _number = place.pop();
    }
    Ok(())
}

/// Adds the place of the node with these children, where it wants an event.
#[tactic(auto, using(crate::proofs::Adding::own_none, crate::proofs::Adding::own_some, crate::proofs::Adding::one_found,))]
fn add_own_place(
    alloc: Global,
    node: &Node,
    children: &[Node],
    place: &Place,
    found: &mut Vec<(Place, Want)>,
) -> Result<(), OutOfMemory>
    ensures { IfOk result (λ _. AddsOwn node.now children.now place.now.items
        (map found_view found.old.items) (map found_view found.new.items)) }
{
    if let Some(want) = wanted_by(node, children) {
        let own = Vec::from_slice(alloc, place)?;
        found.push((own, want))?;
    }
    Ok(())
}

/// How many places want an event at the node of that number and below it.
#[cycle(count_places)]
pub(crate) fn count_places(nodes: &Nodes, number: NodeNumber) -> usize
    requires within { number.0 < length nodes.now }
    requires few { (names : List (List ℕ))
        → open_count (shown_at names nodes.now number.0) < 2 ^ 64 }
    ensures { (names : List (List ℕ)) → result ≡ open_count (shown_at names nodes.now number.0) }
{
    let node = nodes.node(number);
    let own = usize::from(wanted_by(node, nodes.children(node)).is_some());
    match node {
        Node::Split { visit: _, children } => own + count_places_below(nodes, *children),
        Node::Ready(_) | Node::Waiting { .. } | Node::Ended(_) => own,
    }
}

/// How many want one at these children and below them.
#[cycle(count_places)]
fn count_places_below(nodes: &Nodes, children: Children) -> usize
    requires range { HasRange nodes.now children }
    requires few { (names : List (List ℕ)) → open_below_count names nodes.now children < 2 ^ 64 }
    ensures { (names : List (List ℕ)) → result ≡ open_below_count names nodes.now children }
{
    let mut counted = 0;
    for number in 0..children.count {
        counted += count_places(nodes, NodeNumber(children.first.0 + number));
    }
    counted
}
