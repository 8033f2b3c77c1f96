//! The walk through a state, in the order of its steps.

ghost use Rattle.std.specs.Prelude.{◌≡◌, ◌<◌, OnOk, length};
ghost use Rattle.asl_state_edges.specs.Entry.{IsEntryBelow};
ghost use Rattle.asl_state_edges.specs.Steps as parts;
ghost use Rattle.asl_state_edges.specs.Walks.{Adds};
ghost use Rattle.asl_model.specs.Shape.{inhabited};
ghost use Rattle.asl_numbered.specs.Expansion.{shape_at, Keeps};
ghost use Rattle.asl_states.specs.Machine.{target_name};

use crate::found::{Entry, Step};
use crate::pushing::{push_doubts, push_end, push_next, push_onward};
use asl_flow::{effective_at, output_at};
use asl_numbered::Shapes;
use asl_states::{State, Target};
use asl_tree::OutOfMemory;
use std::alloc::Global;

/// A state that is walked through, with its shapes.
#[derive(Clone, Copy, Drop)]
pub(crate) struct Walk<'w, 'm> {
    pub(crate) alloc: Global,
    pub(crate) state: &'m State,
    pub(crate) entry: Entry<'w>,
}

impl<'m> Walk<'_, 'm> {
    /// Walks through the state, for what its task gives. No tree goes through where none has the state's input.
    pub(crate) fn walk(
        &self,
        shapes: &mut Shapes,
        steps: &mut Vec<Step<'m>>,
        gives: usize,
    ) -> Result<(), OutOfMemory>
        requires entry { IsEntryBelow (length shapes.old) self.now.entry }
        requires gives { gives < length shapes.old }
        ensures adds { OnOk result
            (Adds shapes.new steps.old.items steps.new.items
            (parts.steps shapes.old self.now gives)) }
        ensures keeps { Keeps shapes.old shapes.new }
    {
        if is_inhabited(shapes, self.entry.input) {
            self.walk_parts(shapes, steps, gives)
        } else {
            Ok(())
        }
    }

    /// Walks over what comes of the input, over what needs no effective input, and over the catchers.
    fn walk_parts(
        &self,
        shapes: &mut Shapes,
        steps: &mut Vec<Step<'m>>,
        gives: usize,
    ) -> Result<(), OutOfMemory>
        requires entry { IsEntryBelow (length shapes.old) self.now.entry }
        requires gives { gives < length shapes.old }
        ensures adds { OnOk result
            (Adds shapes.new steps.old.items steps.new.items
            (parts.inner_steps shapes.old self.now gives)) }
        ensures keeps { Keeps shapes.old shapes.new }
    {
        self.walk_input(shapes, steps)?;
        self.walk_settled(shapes, steps, gives)?;
        self.walk_catchers(shapes, steps, &self.state.settings.catchers)
    }

    /// Walks over the way to the effective input, and over what comes of it.
    fn walk_input(&self, shapes: &mut Shapes, steps: &mut Vec<Step<'m>>) -> Result<(), OutOfMemory>
        requires entry { IsEntryBelow (length shapes.old) self.now.entry }
        ensures adds { OnOk result
            (Adds shapes.new steps.old.items steps.new.items
            (parts.input_steps shapes.old self.now)) }
        ensures keeps { Keeps shapes.old shapes.new }
    {
        match effective_at(self.alloc, shapes, &self.state.settings, self.entry.input)? {
            Ok(effective) => self.walk_work(shapes, steps, effective),
            Err(doubts) => push_doubts(steps, &doubts),
        }
    }

    /// A result goes its way to the output, and on.
    pub(crate) fn walk_result(
        &self,
        shapes: &mut Shapes,
        steps: &mut Vec<Step<'m>>,
        work: usize,
    ) -> Result<(), OutOfMemory>
        requires input { self.now.entry.input < length shapes.old }
        requires work { work < length shapes.old }
        ensures adds { OnOk result
            (Adds shapes.new steps.old.items steps.new.items
            (parts.result_steps shapes.old self.now work)) }
        ensures keeps { Keeps shapes.old shapes.new }
    {
        match output_at(self.alloc, shapes, self.state, self.entry.input, work)? {
            Ok(output) => push_onward(steps, &self.state.settings.next, output),
            Err(doubts) => push_doubts(steps, &doubts),
        }
    }

    /// An effective input goes its way to the output, and to the state that the field names.
    pub(crate) fn walk_chosen(
        &self,
        shapes: &mut Shapes,
        steps: &mut Vec<Step<'m>>,
        field: &'static str,
        next: &'m Target,
        work: usize,
    ) -> Result<(), OutOfMemory>
        requires input { self.now.entry.input < length shapes.old }
        requires work { work < length shapes.old }
        ensures adds { OnOk result
            (Adds shapes.new steps.old.items steps.new.items
            (parts.chosen_steps shapes.old self.now field.now (target_name next.now)
            work)) }
        ensures keeps { Keeps shapes.old shapes.new }
    {
        match output_at(self.alloc, shapes, self.state, self.entry.input, work)? {
            Ok(output) => push_next(steps, field, next, output),
            Err(doubts) => push_doubts(steps, &doubts),
        }
    }

    /// An effective input goes its way to the output, and out of the scope.
    pub(crate) fn walk_end(
        &self,
        shapes: &mut Shapes,
        steps: &mut Vec<Step<'m>>,
        work: usize,
    ) -> Result<(), OutOfMemory>
        requires input { self.now.entry.input < length shapes.old }
        requires work { work < length shapes.old }
        ensures adds { OnOk result
            (Adds shapes.new steps.old.items steps.new.items
            (parts.end_steps shapes.old self.now work)) }
        ensures keeps { Keeps shapes.old shapes.new }
    {
        match output_at(self.alloc, shapes, self.state, self.entry.input, work)? {
            Ok(output) => push_end(steps, "Type", output),
            Err(doubts) => push_doubts(steps, &doubts),
        }
    }
}

/// Whether some tree has the shape of that number.
fn is_inhabited(shapes: &Shapes, number: usize) -> bool
    requires { number < length shapes.now }
    ensures { result ≡ inhabited (shape_at shapes.now number) }
{
    shapes.inhabited(number).unwrap()
}
