//! The command `test`: suites of test cases are loaded from files, played, and reported.
//!
//! [`test_files`] does what a [`TestRequest`] asks for.
#![tactic(auto)]

mod hints;
mod loading;
mod testing;

pub use testing::{TestRequest, test_files};
