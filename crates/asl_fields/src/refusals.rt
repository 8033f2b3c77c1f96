// Why a definition is refused.

ghost use Rattle.std.specs.Prelude.{◌≡◌, IfSome, Some, None, option_map};
ghost use Rattle.asl_fields.specs.View.{def_fault_view};

use asl_tree::WantOfMemory;
use std::alloc::Global;

/// What is wrong with a definition (States Language, "Structure of a State Machine", "Top-level fields", "State Types").
#[derive(Clone, Copy, Debug)]
pub enum DefFault {
    /// The machine or a state is no object.
    NotObject,
    /// A field that is required isn't there.
    MissingField,
    /// A field has a value of another kind, or a number outside its range.
    WrongKind,
    /// There is no such field.
    UnknownField,
    /// The field belongs to a part of the language that is left out, or names another query language.
    LeftOut,
    /// There is no such type of state.
    UnknownType,
    /// A state's name has more than 80 characters.
    NameTooLong,
    /// A state's name stands in the machine already.
    DuplicateName,
    /// A start or a target names no state of its scope.
    NoSuchState,
    /// A state has both `Next` and `"End": true`, or neither.
    NextOrEnd,
    /// A text is no reference path.
    BadPath,
    /// A payload template is none.
    BadTemplate,
    /// A choice rule is none.
    BadRule,
    /// `States.ALL` doesn't stand alone and last.
    BadErrorEquals,
    /// A list that may not be empty is.
    EmptyList,
    /// A heartbeat isn't smaller than its timeout.
    HeartbeatNotSmaller,
    /// There are more than 10,000 states.
    TooLarge,
    /// There was no memory to tell.
    OutOfMemory,
    /// A number is no whole number from -9223372036854775808 to 9223372036854775807.
    NotWhole,
}

impl DefFault {
    ghost use Rattle.asl_model.specs.Printed.{definition_fault_name};

    /// The fault's name, as it is printed.
    pub fn name(self) -> &'static str
        ensures { IfSome (def_fault_view self) (λ fault. result.now ≡ definition_fault_name fault) }
    {
        match self {
            DefFault::NotObject => "NotObject",
            DefFault::MissingField => "MissingField",
            DefFault::WrongKind => "WrongKind",
            DefFault::UnknownField => "UnknownField",
            DefFault::LeftOut => "LeftOut",
            DefFault::UnknownType => "UnknownType",
            DefFault::NameTooLong => "NameTooLong",
            DefFault::DuplicateName => "DuplicateName",
            DefFault::NoSuchState => "NoSuchState",
            DefFault::NextOrEnd => "NextOrEnd",
            DefFault::BadPath => "BadPath",
            DefFault::BadTemplate => "BadTemplate",
            DefFault::BadRule => "BadRule",
            DefFault::BadErrorEquals => "BadErrorEquals",
            DefFault::EmptyList => "EmptyList",
            DefFault::HeartbeatNotSmaller => "HeartbeatNotSmaller",
            DefFault::TooLarge => "TooLarge",
            DefFault::OutOfMemory => "OutOfMemory",
            DefFault::NotWhole => "NotWhole",
        }
    }
}

impl<E: WantOfMemory + Drop> From<E> for DefFault {
    ghost use Rattle.asl_fields.specs.declared.refusals.DefFault.{DefFault};

    ghost from_gives = { λ _ fault. fault ≡ DefFault.OutOfMemory };

    fn from(_want: E) -> DefFault {
        DefFault::OutOfMemory
    }
}

/// Why a definition is refused: the fault, the name of its state, empty for the machine's own, and its field.
#[derive(Debug, Drop)]
pub struct DefRefusal {
    pub fault: DefFault,
    pub state: String,
    pub field: String,
}

impl DefRefusal {
    ghost use Rattle.asl_fields.specs.View.{complaint_of, refusal_view};

    /// A fault at a state and a field. Where there is no memory for their names, that is what is told.
    pub fn new(alloc: Global, fault: DefFault, state: &str, field: &str) -> DefRefusal
        ensures { IfSome (refusal_view result)
            (λ c. option_map (complaint_of state.now field.now) (def_fault_view fault) ≡ Some c) }
    {
        match (
            String::from_str(alloc, state),
            String::from_str(alloc, field),
        ) {
            (Ok(state), Ok(field)) => DefRefusal {
                fault,
                state,
                field,
            },
            _ => DefRefusal::out_of_memory(alloc),
        }
    }

    /// Want of memory, at no state and no field.
    pub fn out_of_memory(alloc: Global) -> DefRefusal
        ensures { refusal_view result ≡ None }
    {
        DefRefusal {
            fault: DefFault::OutOfMemory,
            state: String::new(alloc),
            field: String::new(alloc),
        }
    }
}
