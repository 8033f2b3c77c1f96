//! The order of names in shapes that are declared.

ghost use Rattle.asl_model.specs.RecordShapes.{HoldsForDeclared};
ghost use Rattle.asl_model.specs.Shape.{IsOrdered};
ghost use Rattle.asl_records.specs.View.{declared_view};

use asl_records::Declared;
use asl_shape::proper;

/// In the shapes of objects that are declared the names of fields stand in byte order. Looks at each shape once, and
/// takes no memory.
pub fn names_in_order(declared: &Declared)
    ensures { HoldsForDeclared IsOrdered (declared_view declared.now) }
{
    // What a shape is told to be doesn't matter here: of each that is looked at the names are known to stand in order.
    let _ = proper(&declared.input);
    for task in declared.tasks.values() {
        let _ = proper(&task.takes);
        let _ = proper(&task.gives);
    }
}
