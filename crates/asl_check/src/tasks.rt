//! What tasks take and give, by number.

ghost use Rattle.std.specs.Prelude.{IfOk};
ghost use Rattle.asl_numbered.specs.Expansion.{Keeps};
ghost use Rattle.asl_records.specs.View.{declared_view};
ghost use Rattle.asl_check.specs.Tasks.{AreOfTask};

use asl_numbered::Shapes;
use asl_records::Declared;
use asl_shape::Shape;
use asl_tree::OutOfMemory;

/// The numbers of what a task takes and of what it gives.
#[derive(Clone, Copy, Drop)]
pub(crate) struct TaskNumbers {
    pub(crate) takes: usize,
    pub(crate) gives: usize,
}

/// The numbers of what is declared of the task of that name; one that isn't declared takes and gives every tree.
pub(crate) fn number_task(
    shapes: &mut Shapes,
    declared: &Declared,
    name: &str,
) -> Result<TaskNumbers, OutOfMemory>
    ensures numbered { IfOk result (AreOfTask shapes.new (declared_view declared.now) name.now) }
    ensures keeps { Keeps shapes.old shapes.new }
{
    match declared.task(name) {
        Some(task) => {
            let takes = shapes.add(&task.takes)?;
            let gives = shapes.add(&task.gives)?;
            Ok(TaskNumbers { takes, gives })
        }
        None => {
            let any = shapes.add(&Shape::Any)?;
            Ok(TaskNumbers {
                takes: any,
                gives: any,
            })
        }
    }
}
