//! Declared shapes and certificates.

ghost use Rattle.std.specs.Prelude.{◌≡◌, option_map};
ghost use Rattle.asl_model.specs.Certificate.{under};
ghost use Rattle.asl_records.specs.View.{declared_view, task_view};

use asl_numbered::Shapes;
use asl_shape::Shape;
use std::collections::BTreeMap;

/// The shapes that a user declares.
#[derive(Debug, Drop)]
pub struct Declared {
    /// The machine's input.
    pub input: Shape,
    /// What each task takes and gives, by the name of its state.
    pub tasks: BTreeMap<String, TaskShapes>,
}

impl Declared {
    /// The shapes that are declared of the task of that name.
    pub fn task(&self, name: &str) -> Option<&TaskShapes>
        ensures { option_map (λ task. task_view task.now) result
            ≡ under name.now (declared_view self.now).tasks }
    {
        self.tasks.get(name)
    }
}

/// The shapes of a task.
#[derive(Debug, Drop)]
pub struct TaskShapes {
    /// Of its payload.
    pub takes: Shape,
    /// Of its result.
    pub gives: Shape,
}

/// The shapes that are to be checked.
#[derive(Debug, Drop)]
pub struct Certificate {
    /// The machine's output.
    pub output: Shape,
    /// Each state's shapes, by its name.
    pub states: BTreeMap<String, StateShapes>,
}

/// The certified shapes of a state.
#[derive(Debug, Drop)]
pub struct StateShapes {
    /// Of its raw input.
    pub input: Shape,
    /// Of its output.
    pub output: Shape,
    /// Of the end of each branch of a Parallel, in order; none for another type.
    pub branches: Vec<Shape>,
    /// Of the end of a Map's processor; none for another type.
    pub item: Option<Shape>,
}

/// The shapes that are to be checked, each a number of a table and below the table's length.
#[derive(Drop)]
pub struct NumberedCertificate {
    /// The table.
    pub shapes: Shapes,
    /// The machine's output.
    pub output: usize,
    /// Each state's shapes, by its name.
    pub states: BTreeMap<String, StateNumbers>,
}

/// The certified shapes of a state, by number.
#[derive(Debug, Drop)]
pub struct StateNumbers {
    /// Of its raw input.
    pub input: usize,
    /// Of its output.
    pub output: usize,
    /// Of the end of each branch of a Parallel, in order; none for another type.
    pub branches: Vec<usize>,
    /// Of the end of a Map's processor; none for another type.
    pub item: Option<usize>,
}
