//! What is wrong with a certificate.

ghost use Rattle.std.specs.Prelude.{◌≡◌, ◌<◌, ℕ, List};
ghost use Rattle.asl_model.specs.Finding.{breach_of, missing_breach, plain_breach};
ghost use Rattle.asl_model.specs.Shape.{Shape};
ghost use Rattle.asl_flow.specs.Doubts.{fault_of, IsCauseBelow};
ghost use Rattle.asl_shape_paths.specs.Doubts.{doubtful_view};
ghost use Rattle.asl_state_edges.specs.View.{broken_view, finding_fault_view, IsBrokenBelow};

use asl_flow::{Cause, Doubt};
use asl_shape_paths::DoubtfulPath;

/// What is wrong with a certificate, in the order in which the rules are looked at.
#[derive(Clone, Copy, Drop)]
pub enum FindingFault {
    /// The certificate has no entry of the right form for a state.
    NotCertified,
    /// The certificate has an entry for a name that no state has.
    NotAState,
    /// No shapes are declared for a Task state.
    TaskUndeclared,
    /// Shapes are declared for a name that no Task state has.
    TaskUnknown,
    /// The declared input isn't within the certified input of the start state.
    StartInput,
    /// A path may name nothing.
    PathMayBeMissing,
    /// A path may name a value of another kind than the state needs.
    WrongKind,
    /// A result may not fit at the place that it is put in.
    ResultMayNotFit,
    /// A call of an intrinsic function may fail.
    IntrinsicMayFail,
    /// A Choice has no `Default`, and no two of its rules stand for one.
    NoDefault,
    /// A payload isn't within what its task takes.
    PayloadNotTaken,
    /// An output isn't within the certified output of its state.
    OutputNotCertified,
    /// An output isn't within the certified input of the state that comes next.
    NextInput,
    /// An output isn't within the shape certified for the end of its scope.
    ScopeOutput,
    /// The input of a branch or an iteration isn't within that of its start state.
    BranchInput,
    /// What a catcher hands on isn't within the certified input of its state.
    CatchInput,
}

impl FindingFault {
    ghost use Rattle.asl_model.specs.Printed.{finding_name};
    ghost use Rattle.asl_state_edges.specs.View.{finding_fault_view};

    /// The fault's name, as it is printed.
    pub fn name(self) -> &'static str
        ensures { result.now ≡ finding_name (finding_fault_view self) }
    {
        match self {
            FindingFault::NotCertified => "NotCertified",
            FindingFault::NotAState => "NotAState",
            FindingFault::TaskUndeclared => "TaskUndeclared",
            FindingFault::TaskUnknown => "TaskUnknown",
            FindingFault::StartInput => "StartInput",
            FindingFault::PathMayBeMissing => "PathMayBeMissing",
            FindingFault::WrongKind => "WrongKind",
            FindingFault::ResultMayNotFit => "ResultMayNotFit",
            FindingFault::IntrinsicMayFail => "IntrinsicMayFail",
            FindingFault::NoDefault => "NoDefault",
            FindingFault::PayloadNotTaken => "PayloadNotTaken",
            FindingFault::OutputNotCertified => "OutputNotCertified",
            FindingFault::NextInput => "NextInput",
            FindingFault::ScopeOutput => "ScopeOutput",
            FindingFault::BranchInput => "BranchInput",
            FindingFault::CatchInput => "CatchInput",
        }
    }
}

/// A broken rule of a state.
#[derive(Clone, Copy, Drop)]
pub struct Broken<'m> {
    /// The field that it is told at.
    pub field: &'static str,
    /// What is wrong.
    pub fault: FindingFault,
    /// Of a path in a template the name of the nearest field of an object, without its suffix; elsewhere it is empty.
    pub name: &'m str,
    /// Where a path may name nothing, that path, with the number of the shape that it goes into.
    pub path: Option<DoubtfulPath<'m>>,
}

/// The broken rule with that field and that fault, which no path tells.
pub(crate) fn broken_at<'m>(field: &'static str, fault: FindingFault) -> Broken<'m>
    ensures seen { (table : List Shape) → broken_view table result
        ≡ plain_breach field.now (finding_fault_view fault) }
    ensures below { (bound : ℕ) → IsBrokenBelow bound result }
{
    Broken {
        field,
        fault,
        name: "",
        path: None,
    }
}

/// The broken rule that a doubt of a shape on its way is.
pub(crate) fn broken_by(doubt: Doubt<'_>) -> Broken<'_>
    ensures seen { (table : List Shape) → broken_view table result
        ≡ breach_of (fault_of table doubt.entry) }
    ensures below { (bound : ℕ) → IsCauseBelow bound doubt.entry.cause
        → IsBrokenBelow bound result }
{
    match doubt.cause {
        Cause::MayBeMissing(path) => missing_at(doubt.field, doubt.name, path),
        Cause::MayFail => broken_at(doubt.field, FindingFault::IntrinsicMayFail),
        Cause::MayNotFit => broken_at(doubt.field, FindingFault::ResultMayNotFit),
    }
}

/// The broken rule that a path of that field is which may name nothing, with the name that is told of it.
pub(crate) fn missing_at<'m>(
    field: &'static str,
    name: &'m str,
    path: DoubtfulPath<'m>,
) -> Broken<'m>
    ensures seen { (table : List Shape) → broken_view table result
        ≡ missing_breach field.now (doubtful_view table path.entry) }
    ensures below { (bound : ℕ) → path.entry.shape < bound → IsBrokenBelow bound result }
{
    Broken {
        field,
        fault: FindingFault::PathMayBeMissing,
        name,
        path: Some(path),
    }
}
