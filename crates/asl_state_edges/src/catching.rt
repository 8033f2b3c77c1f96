//! The walk over what catchers hand on.

ghost use Rattle.std.specs.Prelude.{◌≡◌, ◌<◌, OnOk, length};
ghost use Rattle.asl_state_edges.specs.Steps.{catcher_steps, catchers_steps};
ghost use Rattle.asl_state_edges.specs.Walks.{Adds};
ghost use Rattle.asl_model.specs.Finding.{error_output_shape};
ghost use Rattle.asl_numbered.specs.Expansion.{shape_at, Keeps};

use crate::faults::FindingFault;
use crate::found::Step;
use crate::pushing::{push_broken, push_caught};
use crate::walking::Walk;
use asl_flow::error_output_at;
use asl_numbered::Shapes;
use asl_shape_paths::{PutRefusal, put_at};
use asl_states::Catcher;
use asl_tree::OutOfMemory;

impl<'m> Walk<'_, 'm> {
    /// Walks over what each catcher hands on.
    pub(crate) fn walk_catchers(
        &self,
        shapes: &mut Shapes,
        steps: &mut Vec<Step<'m>>,
        catchers: &'m [Catcher],
    ) -> Result<(), OutOfMemory>
        requires input { self.now.entry.input < length shapes.old }
        ensures adds { OnOk result
            (Adds shapes.new steps.old.items steps.new.items
            (catchers_steps shapes.old self.now catchers.now)) }
        ensures keeps { Keeps shapes.old shapes.new }
    {
        if catchers.is_empty() {
            return Ok(());
        }
        let error = error_output_at(self.alloc, shapes)?;
        for catcher in catchers {
            self.walk_catcher(shapes, steps, error, catcher)?;
        }
        Ok(())
    }

    /// Walks over what a catcher hands on: the input with an error output of that shape placed in it, or the input itself.
    fn walk_catcher(
        &self,
        shapes: &mut Shapes,
        steps: &mut Vec<Step<'m>>,
        error: usize,
        catcher: &'m Catcher,
    ) -> Result<(), OutOfMemory>
        requires input { self.now.entry.input < length shapes.old }
        requires error { error < length shapes.old }
        requires error_output { shape_at shapes.old error ≡ error_output_shape }
        ensures adds { OnOk result
            (Adds shapes.new steps.old.items steps.new.items
            (catcher_steps shapes.old self.now catcher.now)) }
        ensures keeps { Keeps shapes.old shapes.new }
    {
        match &catcher.result_path {
            None => push_caught(steps, &catcher.next, self.entry.input),
            Some(path) => match put_at(self.alloc, shapes, self.entry.input, path, error) {
                Ok(placed) => push_caught(steps, &catcher.next, placed),
                Err(PutRefusal::MayNotFit(_)) => {
                    push_broken(steps, "Catch", FindingFault::ResultMayNotFit)
                }
                Err(PutRefusal::OutOfMemory) => Err(OutOfMemory),
            },
        }
    }
}
