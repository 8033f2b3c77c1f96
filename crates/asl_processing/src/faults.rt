//! The data-flow faults that a state raises itself (States Language, "Errors", "Predefined Error Codes").

ghost use Rattle.std.specs.Prelude.{◌≡◌, codes};

use asl_tree::WantOfMemory;

/// The six errors of data flow. `Path.NamesNothing` and `Path.WrongKind` are the profile's own.
#[derive(Clone, Copy, Debug, Drop)]
pub enum DataFlowError {
    /// `States.ParameterPathFailure`: a path in a template names nothing.
    ParameterPathFailure,
    /// `States.ResultPathMatchFailure`: a result, or an error's output, can't be placed where the path says.
    ResultPathMatchFailure,
    /// `States.NoChoiceMatched`: no rule of a Choice is true, and it has no `Default`.
    NoChoiceMatched,
    /// `States.IntrinsicFailure`: a call in a template has no value.
    IntrinsicFailure,
    /// `Path.NamesNothing`: a path elsewhere names nothing.
    NamesNothing,
    /// `Path.WrongKind`: a path names a value of another kind than its field wants.
    WrongKind,
}

/// A data-flow fault: its error, and the name of the field where it was met.
#[derive(Clone, Copy, Debug, Drop)]
pub struct Fault {
    /// Which of the six.
    pub error: DataFlowError,
    /// The state's field, such as `ResultPath`.
    pub field: &'static str,
}

/// Why data doesn't flow on.
#[derive(Clone, Copy, Drop)]
pub enum Stop {
    /// The state has met a data-flow fault.
    Fault(Fault),
    /// An allocation was refused.
    OutOfMemory,
}

impl DataFlowError {
    ghost use Rattle.asl_model.specs.Faults.{error_name};
    ghost use Rattle.asl_processing.specs.Faults.{error_view};

    /// The name of the error.
    pub fn name(self) -> &'static str
        ensures { result.now ≡ error_name (error_view self) }
    {
        match self {
            DataFlowError::ParameterPathFailure => "States.ParameterPathFailure",
            DataFlowError::ResultPathMatchFailure => "States.ResultPathMatchFailure",
            DataFlowError::NoChoiceMatched => "States.NoChoiceMatched",
            DataFlowError::IntrinsicFailure => "States.IntrinsicFailure",
            DataFlowError::NamesNothing => "Path.NamesNothing",
            DataFlowError::WrongKind => "Path.WrongKind",
        }
    }
}

impl<E: WantOfMemory + Drop> From<E> for Stop {
    ghost use Rattle.asl_processing.specs.declared.faults.Stop.{Stop};

    ghost from_gives = { λ _ stop. stop ≡ Stop.OutOfMemory };

    fn from(_want: E) -> Stop {
        Stop::OutOfMemory
    }
}

impl From<Fault> for Stop {
    ghost use Rattle.asl_processing.specs.declared.faults.Stop.{Stop};

    ghost from_gives = { λ fault stop. stop ≡ Stop.Fault fault };

    fn from(fault: Fault) -> Stop {
        Stop::Fault(fault)
    }
}
