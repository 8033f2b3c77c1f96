//! Comparing what flows with what is certified.

ghost use Rattle.std.specs.Prelude.{◌≡◌, ◌≢◌, ◌<◌, length, IfOk, IfSome, option_map, option_to_list};
ghost use Rattle.asl_model.specs.Finding.{PathMayBeMissing, breach_unless_sub};
ghost use Rattle.asl_model.specs.ShapeOrder as order;
ghost use Rattle.asl_numbered.specs.Expansion.{shape_at};
ghost use Rattle.asl_state_edges.specs.View.{finding_fault_view};
ghost use Rattle.asl_check.specs.Faults.{fault_view, IsFaultBelow};

use crate::faults::{Fault, Shown};
use asl_numbered::Shapes;
use asl_state_edges::FindingFault;
use asl_tree::OutOfMemory;

/// The broken rule where the shape of a number isn't inside that of what is expected, if anything is: a tree outside
/// shows it.
pub(crate) fn broken_unless_sub<'m>(
    shapes: &mut Shapes,
    number: usize,
    expected: Option<usize>,
    field: &'static str,
    fault: FindingFault,
) -> Result<Option<Fault<'m>>, OutOfMemory>
    requires number { number < length shapes.old }
    requires expected { IfSome expected (λ n. n < length shapes.old) }
    requires apart { finding_fault_view fault ≢ PathMayBeMissing }
    ensures told { IfOk result
        (λ told. option_to_list (option_map (fault_view shapes.old) told)
        ≡ breach_unless_sub field.now (finding_fault_view fault) (shape_at shapes.old number)
        (option_map (shape_at shapes.old) expected)) }
    ensures below { IfOk result (λ told. IfSome told (IsFaultBelow (length shapes.old))) }
    ensures unchanged { shapes.new ≡ shapes.old }
{
    let Some(outer) = expected else {
        return Ok(None);
    };
    if is_inside(shapes, number, outer)? {
        return Ok(None);
    }
    let shown = Shown::Outside {
        inner: number,
        outer,
    };
    Ok(Some(Fault {
        field,
        fault,
        shown,
    }))
}

/// Whether the first number's shape is inside the second's.
fn is_inside(shapes: &mut Shapes, inner: usize, outer: usize) -> Result<bool, OutOfMemory>
    requires inner { inner < length shapes.old }
    requires outer { outer < length shapes.old }
    ensures inside { IfOk result
        (λ b. b ≡ order.sub (shape_at shapes.old inner) (shape_at shapes.old outer)) }
    ensures unchanged { shapes.new ≡ shapes.old }
{
    Ok(shapes.sub(inner, outer)?.unwrap())
}
