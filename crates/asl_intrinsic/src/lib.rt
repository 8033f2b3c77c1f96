//! Calls of intrinsic functions (States Language, "Intrinsic Functions"), and their values.
//!
//! [`parse`] reads a [`Call`] from its text, [`eval`] gives its value for an input and the item that a Map takes at hand.
#![tactic(auto)]

ghost use Rattle.std.specs.Prelude.{◌≡◌};

use crate::cutting::{CutRefusal, Fault};
use asl_tree::{Tree, WantOfMemory};

mod call;
mod cutting;
mod evaluating;
mod functions;
mod literal;
mod meaning;
mod parsing;
mod references;
mod scanning;
mod value;
mod words;

pub use call::{Arg, Call, Pieces};
pub use evaluating::eval;
pub use parsing::parse;
pub use references::parse_reference;

/// The item that a Map takes at hand.
#[derive(Clone, Copy)]
pub struct Item<'t> {
    /// Its number, counted from 0.
    pub index: i64,
    pub value: &'t Tree,
}

/// Why a text is no call. Of the first three the first that stands counts.
#[derive(Clone, Copy, Debug, Drop)]
pub enum CallRefusal {
    /// The text isn't written as a call, or a number in it is out of an `i64`'s range, or calls nest more than 32 deep.
    Malformed,
    /// A function is none of `States.Array`, `States.ArrayLength` and `States.Format`.
    UnknownFunction,
    /// A path is none, or a context path that isn't allowed.
    BadPath,
    /// An allocation was refused.
    OutOfMemory,
}

impl From<CutRefusal> for CallRefusal {
    ghost use Rattle.asl_intrinsic.specs.Meaning.{refusal_of_cut};

    ghost from_gives = { λ refusal given. given ≡ refusal_of_cut refusal };

    fn from(refusal: CutRefusal) -> CallRefusal {
        match refusal {
            CutRefusal::Malformed => CallRefusal::Malformed,
            CutRefusal::OutOfMemory => CallRefusal::OutOfMemory,
        }
    }
}

impl From<Fault> for CallRefusal {
    ghost use Rattle.asl_intrinsic.specs.Meaning.{refusal_of_fault};

    ghost from_gives = { λ fault given. given ≡ refusal_of_fault fault };

    fn from(fault: Fault) -> CallRefusal {
        match fault {
            Fault::UnknownFunction => CallRefusal::UnknownFunction,
            Fault::BadPath => CallRefusal::BadPath,
        }
    }
}

/// Why a call has no value.
#[derive(Clone, Copy, Debug, Drop)]
pub enum EvalRefusal {
    /// A path names nothing, or there is no item; or a function isn't given as many arguments, or values of the kinds,
    /// that it takes.
    IntrinsicFailure,
    /// An allocation was refused.
    OutOfMemory,
}

impl<E: WantOfMemory + Drop> From<E> for EvalRefusal {
    ghost use Rattle.asl_intrinsic.specs.declared.EvalRefusal.{EvalRefusal};

    ghost from_gives = { λ _ refusal. refusal ≡ EvalRefusal.OutOfMemory };

    fn from(_want: E) -> EvalRefusal {
        EvalRefusal::OutOfMemory
    }
}
