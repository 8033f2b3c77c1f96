//! Suites of test cases for definitions, and what tasks are answered in them.
//!
//! [`read_suite`] reads a suite of a JSON value, [`read_mocks`] what a mock file of Step Functions Local has for a
//! state machine. [`CaseAnswers`] gives the answers of a case by state and attempt, in a Map also by item. [`Similar`] finds the
//! name that may be meant by one that isn't there.
#![tactic(auto)]

mod answering;
mod answers;
mod attempts;
mod fields;
mod mocks;
mod places;
mod reading;
mod refusals;
mod scripts;
mod similar;
mod suites;

pub use answers::{CaseAnswers, States};
pub use mocks::{Mocks, read_mocks};
pub use reading::read_suite;
pub use refusals::{SuiteFault, SuiteRefusal, Unknown, Wanted};
pub use similar::Similar;
pub use suites::{Case, Expected, ExpectedEnd, ExpectedPayloads, Input, MockSource, Suite};
