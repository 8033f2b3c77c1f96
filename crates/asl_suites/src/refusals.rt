//! Why a suite or a mock file is refused.

use asl_tree::{OutOfMemory, WantOfMemory, quoted};
use std::alloc::Global;

/// Why a suite or a mock file isn't read.
#[derive(Debug, Drop)]
pub enum SuiteRefusal {
    /// Something is wrong at that place of the file: a path as `cases[1].answers."Look up payment"[0].Times`, which is
    /// empty for the whole file.
    Wrong { place: String, fault: SuiteFault },
    /// An allocation was refused.
    OutOfMemory,
}

/// What is wrong with a suite or a mock file.
#[derive(Debug, Drop)]
pub enum SuiteFault {
    /// The value is of another kind.
    WrongKind(Wanted),
    /// There is no such field.
    UnknownField,
    /// The field of that name is missing.
    MissingField(&'static str),
    /// An earlier case has the same name.
    SameName,
    /// Both `input` and `inputFile` are given, or neither is.
    OneInput,
    /// A test case of a mock file is named, and the suite names no mock file.
    WithoutMocks,
    /// Nothing is expected of the case.
    ExpectsNothing,
    /// Both `output` and `error` are expected.
    OutputAndError,
    /// A `cause` is expected without an `error`.
    CauseWithoutError,
    /// Both `Return` and `Throw` are given, or neither is.
    OneAnswer,
    /// `Times` is neither a whole number above 0 nor `"*"`.
    BadTimes,
    /// An answer stands behind one that comes for ever.
    BehindForEver,
    /// Some of the elements are lists, and others aren't.
    Mixed,
    /// The mock file has no state machine of that name.
    NoStateMachine(Unknown),
    /// The state machine has no test case of that name.
    NoTestCase(Unknown),
    /// The mock file has no response of that name.
    NoResponse(Unknown),
    /// The name is neither a number nor a range of numbers of attempts.
    BadAttempt,
    /// The attempt of that number has no answer, though a later one has.
    AttemptMissing(u64),
    /// The attempt of that number has an answer already.
    AttemptTwice(u64),
}

/// The kind of value that is wanted.
#[derive(Clone, Copy, Debug, Drop)]
pub enum Wanted {
    Object,
    List,
    Text,
}

/// A name that isn't there, and a similar one that is.
#[derive(Debug, Drop)]
pub struct Unknown {
    pub name: String,
    pub similar: Option<String>,
}

impl<E: WantOfMemory + Drop> From<E> for SuiteRefusal {
    fn from(_want: E) -> SuiteRefusal {
        SuiteRefusal::OutOfMemory
    }
}

impl SuiteFault {
    /// What is wrong, in words for people: a sentence without its full stop. Refuses only where an allocation was
    /// refused.
    pub fn words(&self, alloc: Global) -> Result<String, OutOfMemory> {
        match self {
            SuiteFault::WrongKind(wanted) => said(alloc, wanted.words()),
            SuiteFault::UnknownField => said(alloc, "there is no such field"),
            SuiteFault::MissingField(name) => Ok(format!(in alloc; "\"{name}\" is missing")?),
            SuiteFault::NoStateMachine(unknown) => unknown.words(alloc, "state machine"),
            SuiteFault::NoTestCase(unknown) => unknown.words(alloc, "test case"),
            SuiteFault::NoResponse(unknown) => unknown.words(alloc, "mocked response"),
            SuiteFault::AttemptMissing(number) => {
                Ok(format!(in alloc; "attempt {number} has no response, though a later one has")?)
            }
            SuiteFault::AttemptTwice(number) => {
                Ok(format!(in alloc; "attempt {number} has a response already")?)
            }
            SuiteFault::SameName
            | SuiteFault::OneInput
            | SuiteFault::WithoutMocks
            | SuiteFault::ExpectsNothing
            | SuiteFault::OutputAndError
            | SuiteFault::CauseWithoutError
            | SuiteFault::OneAnswer
            | SuiteFault::BadTimes
            | SuiteFault::BehindForEver
            | SuiteFault::Mixed
            | SuiteFault::BadAttempt => said(alloc, self.rule()),
        }
    }

    /// The rule that is broken, where it has no names or numbers in it; empty where it has.
    fn rule(&self) -> &'static str {
        match self {
            SuiteFault::SameName => "an earlier case has the same name",
            SuiteFault::OneInput => "a case has either \"input\" or \"inputFile\"",
            SuiteFault::WithoutMocks =>
                "a \"testCase\" is one of the suite's \"mocks\", which are missing",
            SuiteFault::ExpectsNothing => {
                "a case expects \"output\", \"error\", \"path\" or \"payloads\""
            }
            SuiteFault::OutputAndError => "a case expects either \"output\" or \"error\"",
            SuiteFault::CauseWithoutError => "a \"cause\" is expected only beside an \"error\"",
            SuiteFault::OneAnswer => "an answer has either \"Return\" or \"Throw\"",
            SuiteFault::BadTimes => "\"Times\" is a whole number of 1 or more, or \"*\"",
            SuiteFault::BehindForEver => "nothing comes behind an answer whose \"Times\" is \"*\"",
            SuiteFault::Mixed => {
                "the elements are answers, or all of them are lists of answers, one for each item"
            }
            SuiteFault::BadAttempt => {
                "attempts are named by a number, as \"0\", or by the first and the last, as \"1-2\""
            }
            SuiteFault::WrongKind(_)
            | SuiteFault::UnknownField
            | SuiteFault::MissingField(_)
            | SuiteFault::NoStateMachine(_)
            | SuiteFault::NoTestCase(_)
            | SuiteFault::NoResponse(_)
            | SuiteFault::AttemptMissing(_)
            | SuiteFault::AttemptTwice(_) => "",
        }
    }
}

impl Wanted {
    fn words(self) -> &'static str {
        match self {
            Wanted::Object => "an object is wanted here",
            Wanted::List => "a list is wanted here",
            Wanted::Text => "a text is wanted here",
        }
    }
}

impl Unknown {
    /// That there is nothing of that kind with the name, and what may be meant. Refuses only where an allocation was refused.
    pub fn words(&self, alloc: Global, kind: &str) -> Result<String, OutOfMemory> {
        let name = quoted(alloc, &self.name)?;
        match &self.similar {
            Some(similar) => {
                let similar = quoted(alloc, similar)?;
                Ok(format!(in alloc; "there is no {kind} {name} (did you mean {similar}?)")?)
            }
            None => Ok(format!(in alloc; "there is no {kind} {name}")?),
        }
    }
}

/// The words as a text of their own.
fn said(alloc: Global, words: &str) -> Result<String, OutOfMemory> {
    Ok(String::from_str(alloc, words)?)
}
