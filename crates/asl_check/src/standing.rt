//! Comparing what flows out of a state with what stands at the destinations of its edges.

ghost use Rattle.std.specs.Prelude.{◌≡◌, ◌<◌, List, length, IfOk, IfSome, OnOk, option_map, option_to_list};
ghost use Rattle.asl_model.specs.Edges.{breaches_along, breaches_at, stands_at};
ghost use Rattle.asl_model.specs.Finding.{found_at};
ghost use Rattle.asl_model.specs.Shape.{Shape};
ghost use Rattle.asl_numbered.specs.Expansion.{shape_at};
ghost use Rattle.asl_state_edges.specs.View.{destination_view, edge_view, step_view, steps_of, AreStepsBelow, IsStepBelow};
ghost use Rattle.asl_check.specs.Faults.{fault_view, IsFaultBelow};
ghost use Rattle.asl_check.specs.Listing.{Adds};
ghost use Rattle.asl_check.specs.Standing.{AreStanding, AreStepsApart, IsEdgeApart, IsStepApart, standing_view};

use crate::checker::Checker;
use crate::comparing::broken_unless_sub;
use crate::faults::{Fault, fault_of};
use crate::listed::{Listed, list};
use asl_numbered::Shapes;
use asl_state_edges::{Destination, Edge, Step};
use asl_tree::OutOfMemory;

/// What stands at the destinations of a state's edges: the certified inputs of states, the state's own output, the end
/// of its scope, if any is certified, and what its task takes.
#[derive(Clone, Copy, Drop)]
pub(crate) struct Standing<'s, 'c> {
    pub(crate) checker: &'s Checker<'c>,
    pub(crate) output: usize,
    pub(crate) end: Option<usize>,
    pub(crate) takes: usize,
}

impl Standing<'_, '_> {
    /// Lists the rules of the state of that name that are broken at the steps, in their order: at an edge that doesn't
    /// fit, or on the way to one.
    pub(crate) fn list_steps<'m>(
        &self,
        shapes: &mut Shapes,
        rules: &mut Vec<Listed<'m>>,
        name: &'m str,
        steps: &[Step<'m>],
    ) -> Result<(), OutOfMemory>
        requires standing { AreStanding shapes.old self.now }
        requires below { AreStepsBelow (length shapes.old) steps.now }
        requires apart { AreStepsApart steps.now }
        ensures adds { OnOk result
            (Adds shapes.old rules.old.items rules.new.items
            (found_at name.now (breaches_along (standing_view shapes.old self.now)
            (steps_of shapes.old steps.now)))) }
        ensures unchanged { shapes.new ≡ shapes.old }
    {
        for step in steps {
            let fault = self.broken_at(shapes, step)?;
            list(rules, name, fault)?;
        }
        Ok(())
    }

    /// The rule that is broken at a step: where what flows at an edge doesn't fit, or on the way to one.
    fn broken_at<'m>(
        &self,
        shapes: &mut Shapes,
        step: &Step<'m>,
    ) -> Result<Option<Fault<'m>>, OutOfMemory>
        requires standing { AreStanding shapes.old self.now }
        requires below { IsStepBelow (length shapes.old) step.now }
        requires apart { IsStepApart step.now }
        ensures told { IfOk result
            (λ told. option_to_list (option_map (fault_view shapes.old) told)
            ≡ breaches_at (standing_view shapes.old self.now) (step_view shapes.old step.now)) }
        ensures below { IfOk result (λ told. IfSome told (IsFaultBelow (length shapes.old))) }
        ensures unchanged { shapes.new ≡ shapes.old }
    {
        match *step {
            Step::Flows(edge) => self.broken_at_edge(shapes, edge),
            Step::Breaks(broken) => Ok(Some(fault_of(broken))),
        }
    }

    /// The rule that is broken where what flows at an edge isn't inside what stands there.
    fn broken_at_edge<'m>(
        &self,
        shapes: &mut Shapes,
        edge: Edge<'m>,
    ) -> Result<Option<Fault<'m>>, OutOfMemory>
        requires standing { AreStanding shapes.old self.now }
        requires flowing { edge.flowing < length shapes.old }
        requires apart { IsEdgeApart edge }
        ensures told { IfOk result
            (λ told. option_to_list (option_map (fault_view shapes.old) told)
            ≡ breaches_at (standing_view shapes.old self.now) (edge_view shapes.old edge.entry)) }
        ensures below { IfOk result (λ told. IfSome told (IsFaultBelow (length shapes.old))) }
        ensures unchanged { shapes.new ≡ shapes.old }
    {
        let expected = self.number_at(edge.destination);
        broken_unless_sub(shapes, edge.flowing, expected, edge.field, edge.fault)
    }

    /// The number of what stands at a destination, if anything does.
    fn number_at(&self, destination: Destination) -> Option<usize>
        ensures within { (table : List Shape) → AreStanding table self.now
            → IfSome result (λ n. n < length table) }
        ensures seen { (table : List Shape) → AreStanding table self.now
            → option_map (shape_at table) result ≡ stands_at (standing_view table self.now)
            (destination_view destination.entry) }
    {
        match destination {
            Destination::Input(target) => self.checker.input_to_compare(&target.name),
            Destination::Output => Some(self.output),
            Destination::End => self.end,
            Destination::Task => Some(self.takes),
        }
    }
}
