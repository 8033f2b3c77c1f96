//! The steps of the walk through a state.

ghost use Rattle.std.specs.Prelude.{◌≡◌, ◌<◌, IfOk, length};
ghost use Rattle.asl_state_edges.specs.Entry.{entry_view, IsEntryBelow};
ghost use Rattle.asl_state_edges.specs.View.{steps_of, AreStepsBelow};
ghost use Rattle.asl_states.specs.Machine.{kind_view, settings_view};
ghost use Rattle.asl_model.specs.Edges.{walk};
ghost use Rattle.asl_numbered.specs.Expansion.{shape_at, Keeps};

use crate::faults::{Broken, FindingFault};
use crate::walking::Walk;
use asl_numbered::Shapes;
use asl_states::{State, Target};
use asl_tree::OutOfMemory;
use std::alloc::Global;

/// Where a shape flows to.
#[derive(Clone, Copy, Drop)]
pub enum Destination<'m> {
    /// The input of that state.
    Input(&'m Target),
    /// The state's own output.
    Output,
    /// The end of the state's scope.
    End,
    /// The payload that the state's task takes.
    Task,
}

/// What flows out of a state, and the finding where it isn't inside what stands there.
#[derive(Clone, Copy, Drop)]
pub struct Edge<'m> {
    /// The number of the shape that flows.
    pub flowing: usize,
    pub destination: Destination<'m>,
    /// The field that the finding is told at.
    pub field: &'static str,
    /// What is wrong where it isn't inside.
    pub fault: FindingFault,
}

/// The shapes of a state, by number.
#[derive(Clone, Copy, Drop)]
pub struct Entry<'e> {
    /// That of its raw input.
    pub input: usize,
    /// That of its output.
    pub output: usize,
    /// For a Parallel that of each branch's end.
    pub branches: &'e [usize],
    /// For a Map that of its processor's end.
    pub item: Option<usize>,
}

/// A step of the walk through a state.
#[derive(Clone, Copy, Drop)]
pub enum Step<'m> {
    /// A shape flows there.
    Flows(Edge<'m>),
    /// A rule is broken on the way to an edge.
    Breaks(Broken<'m>),
}

/// The steps of the walk through a state, for the numbers of its shapes and of what its task gives: its edges, and the rules
/// that are broken on the way to one, all of them in their order; none where no tree has the state's input. Behind a broken
/// rule the walk goes on with what doesn't need the shape that it keeps back. Refuses only where an allocation was refused.
pub fn edges_of<'m>(
    alloc: Global,
    shapes: &mut Shapes,
    state: &'m State,
    entry: Entry,
    gives: usize,
) -> Result<Vec<Step<'m>>, OutOfMemory>
    requires entry { IsEntryBelow (length shapes.old) entry }
    requires gives { gives < length shapes.old }
    ensures walked { IfOk result
        (λ steps. steps_of shapes.new steps.items
        ≡ walk (shape_at shapes.old gives) (settings_view state.now.settings)
        (kind_view state.now.kind) (entry_view shapes.old entry.entry)) }
    ensures below { IfOk result (λ steps. AreStepsBelow (length shapes.new) steps.items) }
    ensures keeps { Keeps shapes.old shapes.new }
{
    let walk = Walk {
        alloc,
        state,
        entry,
    };
    let mut steps = Vec::new(alloc);
    walk.walk(shapes, &mut steps, gives)?;
    Ok(steps)
}
