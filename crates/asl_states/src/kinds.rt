//! What the type of a state says of it.

ghost use Rattle.std.specs.Prelude.{◌≡◌, Some};
ghost use Rattle.asl_model.specs.Certificate as certificates;
ghost use Rattle.asl_model.specs.DefinitionTable.{type_named};
ghost use Rattle.asl_model.specs.Machine as machine;
ghost use Rattle.asl_states.specs.Kinds.{type_of};
ghost use Rattle.asl_states.specs.Machine.{kind_view};

use crate::states::Kind;

impl Kind {
    /// The name of the type, as `Type` of a state says it.
    pub fn name(&self) -> &'static str
        ensures { type_named result.now ≡ Some (type_of (kind_view self.now)) }
    {
        match self {
            Kind::Pass { .. } => "Pass",
            Kind::Task { .. } => "Task",
            Kind::Choice { .. } => "Choice",
            Kind::Wait { .. } => "Wait",
            Kind::Succeed => "Succeed",
            Kind::Fail { .. } => "Fail",
            Kind::Parallel { .. } => "Parallel",
            Kind::Map { .. } => "Map",
        }
    }

    /// Whether it is that of a Task.
    pub fn is_task(&self) -> bool
        ensures { result ≡ machine.is_task (kind_view self.now) }
    {
        matches!(self, Kind::Task { .. })
    }

    /// Whether it is that of a Map.
    pub fn is_map(&self) -> bool
        ensures { result ≡ certificates.is_map (kind_view self.now) }
    {
        matches!(self, Kind::Map { .. })
    }

    /// How many branches a Parallel has; 0 for every other type.
    pub fn branches(&self) -> usize
        ensures count { result ≡ certificates.branches_in (kind_view self.now) }
    {
        match self {
            Kind::Parallel { branches } => branches.len(),
            Kind::Pass { .. }
            | Kind::Task { .. }
            | Kind::Choice { .. }
            | Kind::Wait { .. }
            | Kind::Succeed
            | Kind::Fail { .. }
            | Kind::Map { .. } => 0,
        }
    }
}
