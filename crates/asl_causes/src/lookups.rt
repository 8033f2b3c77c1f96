//! What is looked up in a machine, in declared shapes and in a certificate.

ghost use Rattle.std.specs.Prelude.{◌<◌, IfOk, length};

use crate::flows::Explainer;
use asl_numbered::Shapes;
use asl_shape::Shape;
use asl_states::{Kind, State};
use asl_tree::OutOfMemory;

impl<'m> Explainer<'m> {
    /// The state of that name.
    pub(crate) fn state_named(&self, name: &str) -> Option<&'m State> {
        self.machine.state(self.machine.state_named(name)?)
    }

    /// The number of the shape of the state's input under the certificate.
    pub(crate) fn input_of(&self, state: usize) -> Option<usize> {
        let entry = self.states.get(self.machine.name(state)?)?;
        Some(entry.input)
    }

    /// The number of what the task of that name gives; one that isn't declared gives every tree.
    pub(crate) fn given_by(&self, shapes: &mut Shapes, name: &str) -> Result<usize, OutOfMemory>
        ensures { IfOk result (λ number. number < length shapes.new) }
    {
        match self.declared.task(name) {
            Some(task) => shapes.add(&task.gives),
            None => shapes.add(&Shape::Any),
        }
    }

    /// The number of what the task of that name takes; one that isn't declared takes every tree.
    pub(crate) fn taken_by(&self, shapes: &mut Shapes, name: &str) -> Result<usize, OutOfMemory> {
        match self.declared.task(name) {
            Some(task) => shapes.add(&task.takes),
            None => shapes.add(&Shape::Any),
        }
    }
}
