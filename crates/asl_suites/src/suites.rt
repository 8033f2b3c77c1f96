//! Suites of test cases.

use crate::answers::CaseAnswers;
use asl_tree::Tree;

/// Test cases of one definition.
#[derive(Debug, Drop)]
pub struct Suite {
    /// The file with the definition.
    pub definition: String,
    /// The file with its declared shapes.
    pub declared: Option<String>,
    /// Where the cases' mocked answers come from.
    pub mocks: Option<MockSource>,
    /// The cases, in the order of the suite; no two have the same name.
    pub cases: Vec<Case>,
}

/// A state machine of a mock file.
#[derive(Debug, Drop)]
pub struct MockSource {
    pub file: String,
    pub state_machine: String,
}

/// A test case.
#[derive(Debug, Drop)]
pub struct Case {
    pub name: String,
    pub input: Input,
    /// Its own answers, which come in place of a state's mocked ones.
    pub answers: CaseAnswers,
    /// The test case of the mock file from which the answers of other states come.
    pub test_case: Option<String>,
    pub expected: Expected,
}

/// The input of a run.
#[derive(Debug, Drop)]
pub enum Input {
    Given(Tree),
    /// The file that has it.
    File(String),
}

/// What is expected of a run; something is.
#[derive(Debug, Drop)]
pub struct Expected {
    pub end: Option<ExpectedEnd>,
    /// The names of the states that are entered, in order.
    pub path: Option<Vec<String>>,
    pub payloads: Vec<ExpectedPayloads>,
}

/// How a run is expected to end.
#[derive(Debug, Drop)]
pub enum ExpectedEnd {
    Output(Tree),
    Error {
        error: String,
        /// None where any cause is right.
        cause: Option<String>,
    },
}

/// The payloads with which the task of a state is expected to be asked, in order.
#[derive(Debug, Drop)]
pub struct ExpectedPayloads {
    pub state: String,
    pub payloads: Vec<Tree>,
}
