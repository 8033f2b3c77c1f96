//! Why a shape may not come through a state: one record, from the look-up of a path up to what is told of it.
ghost use Rattle.std.specs.Prelude.{◌≡◌, ◌∷◌, [], ℕ, List, Err, IfOk};
ghost use Rattle.asl_flow.specs.Doubts.{cause_at, flow_view, IsCauseBelow, IsFlowIn};
ghost use Rattle.asl_model.specs.Shape as model;

use asl_shape_paths::DoubtfulPath;
use asl_tree::OutOfMemory;
use std::alloc::Global;

/// What may keep a shape from coming through.
#[derive(Clone, Copy, Drop)]
pub enum Cause<'p> {
    /// A path may name nothing.
    MayBeMissing(DoubtfulPath<'p>),
    /// A call may fail, or there is no item that a path goes into.
    MayFail,
    /// What is placed may not fit.
    MayNotFit,
}

/// Why a shape may not come through a field of a state. In a template `name` is that of the nearest field of an object,
/// without its suffix; elsewhere, and where there is none, it is empty.
#[derive(Clone, Copy, Drop)]
pub struct Doubt<'p> {
    pub field: &'static str,
    pub name: &'p str,
    pub cause: Cause<'p>,
}

/// The number of the shape that comes through, or all doubts in their order.
pub type Flow<'p> = Result<usize, Vec<Doubt<'p>>>;

/// The flow that this one doubt in that field stops. Refuses only where an allocation was refused.
pub(crate) fn stopped<'p>(
    alloc: Global,
    field: &'static str,
    cause: Cause<'p>,
) -> Result<Flow<'p>, OutOfMemory>
    ensures doubt { IfOk result
        (λ flow. (table : List model.Shape)
        → flow_view table flow ≡ Err (cause_at table field.now cause.entry ∷ [])) }
    ensures within { (bound : ℕ) → IsCauseBelow bound cause.entry → IfOk result (IsFlowIn bound) }
{
    let mut doubts = Vec::with_capacity(alloc, 1)?;
    let name = "";
    doubts.push(Doubt { field, name, cause })?;
    Ok(Err(doubts))
}
