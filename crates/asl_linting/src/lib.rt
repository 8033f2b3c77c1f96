//! The command `lint`: definitions are found in files and folders, each is looked at, and what is told of all of them is
//! written in one order.
//!
//! [`lint_files`] does what a `LintRequest` asks for.
#![tactic(auto)]

mod definitions;
mod linting;
mod reports;

pub use linting::lint_files;
