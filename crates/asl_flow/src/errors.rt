//! The number of the shape of the error output, which catchers place.

ghost use Rattle.std.specs.Prelude.{◌≡◌, IfOk, true};
ghost use Rattle.asl_model.specs.Finding.{error_output_shape};
ghost use Rattle.asl_model.specs.Shape as model;
ghost use Rattle.asl_numbered.specs.Expansion.{IsNumberOf, Keeps};
ghost use Rattle.asl_shape.specs.View.{view};

use asl_numbered::Shapes;
use asl_shape::{Field, Shape};
use asl_tree::OutOfMemory;
use std::alloc::Global;
use std::collections::BTreeMap;

/// The number of the shape of the error output, which catchers place: the error's name and its cause, both texts.
/// Refuses only where an allocation was refused.
#[tactic(auto, using(crate::proofs::Numbered::renumbered, asl_numbered::specs::Laws::keeps_same))]
pub fn error_output_at(alloc: Global, shapes: &mut Shapes) -> Result<usize, OutOfMemory>
    ensures number { IfOk result (IsNumberOf shapes.new error_output_shape) }
    ensures keeps { Keeps shapes.old shapes.new }
{
    let shape = error_output(alloc)?;
    shapes.add(&shape)
}

/// The shape of the error output.
fn error_output(alloc: Global) -> Result<Shape, OutOfMemory>
    ensures { IfOk result (λ s. view s ≡ error_output_shape) }
{
    let mut fields = BTreeMap::new(alloc);
    drop(fields.insert(String::from_str(alloc, "Cause")?, needed_text())?);
    drop(fields.insert(String::from_str(alloc, "Error")?, needed_text())?);
    Ok(Shape::Object {
        fields,
        extra: false,
    })
}

/// A needed field with a text.
fn needed_text() -> Field
    ensures needed { result.needed ≡ true }
    ensures shape { view result.shape ≡ model.StringShape }
{
    Field {
        needed: true,
        shape: Shape::Text,
    }
}
