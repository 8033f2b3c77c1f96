//! The exits of a state for others, along the walk through it.

ghost use Rattle.std.specs.Prelude.{◌≡◌, ◌<◌, ◌+◌, List, if◌then◌else◌};
ghost use Rattle.asl_model.specs.Shape.{Shape};
ghost use Rattle.asl_state_edges.specs.View.{step_view};
ghost use Rattle.asl_ways.specs.Exits.{exit_at, none_passed, passed_on, turned};

use asl_state_edges::{Destination, Step};

/// How data leaves a state for another one.
#[derive(Clone, Copy, PartialEq, Drop)]
pub enum Exit {
    /// By `Next`.
    Next,
    /// By the choice rule of that number, counted from 0.
    Rule(usize),
    /// By `Default`.
    Default,
    /// By the catcher of that number, counted from 0.
    Catcher(usize),
    /// Into the branch of that number, counted from 0.
    Branch(usize),
    /// Into the processor of a Map.
    Items,
}

/// How many turns of exits a walk has passed: each choice rule, each catcher and each branch takes one, whether a shape
/// flows into a state there or a rule is broken.
#[derive(Clone, Copy, Drop)]
pub(crate) struct Passed {
    /// All of them.
    turns: usize,
    /// Those of catchers.
    catchers: usize,
    /// Those of branches.
    branches: usize,
}

impl Passed {
    /// Nothing was passed.
    pub(crate) fn none() -> Passed
        ensures { result ≡ none_passed }
    {
        Passed {
            turns: 0,
            catchers: 0,
            branches: 0,
        }
    }

    /// The exit by which a shape flows into a state next, at that field.
    pub(crate) fn exit(&self, field: &str) -> Exit
        ensures { result ≡ exit_at self.now field.now }
    {
        match field {
            "Next" => Exit::Next,
            "Choices" => Exit::Rule(self.turns),
            "Default" => Exit::Default,
            "Catch" => Exit::Catcher(self.catchers),
            "Branches" => Exit::Branch(self.branches),
            _ => Exit::Items,
        }
    }

    /// What was passed once the step is, too.
    pub(crate) fn on(self, step: &Step) -> Passed
        requires turns { self.turns < usize.MAX }
        requires catchers { self.catchers < usize.MAX }
        requires branches { self.branches < usize.MAX }
        ensures { (table : List Shape) → result ≡ passed_on self (step_view table step.now) }
    {
        match *step {
            Step::Flows(edge) => match edge.destination {
                Destination::Input(_) => self.turned(edge.field),
                Destination::Output | Destination::End | Destination::Task => self,
            },
            Step::Breaks(broken) => self.turned(broken.field),
        }
    }

    /// What was passed once a turn at that field is, too.
    fn turned(self, field: &str) -> Passed
        requires turns { self.turns < usize.MAX }
        requires catchers { self.catchers < usize.MAX }
        requires branches { self.branches < usize.MAX }
        ensures { result ≡ turned self field.now }
    {
        Passed {
            turns: self.turns + 1,
            catchers: counted(self.catchers, field == "Catch"),
            branches: counted(self.branches, field == "Branches"),
        }
    }
}

/// One more, if the test holds.
fn counted(count: usize, holds: bool) -> usize
    requires { count < usize.MAX }
    ensures { result ≡ (if holds then count + 1 else count) }
{
    if holds { count + 1 } else { count }
}
