//! Pictures of state machines, for people, as texts in Mermaid's and Graphviz's languages.
//!
//! [`graph_texts`] takes a definition and, where they are there, declared shapes, and writes the picture in one
//! [`Format`]: `flowchart TD` of Mermaid, which web pages show for a block of the language `mermaid`, or a `digraph` in
//! DOT, which the program `dot` takes.
//!
//! - The states stand in the order of the definition's text. A Choice is a rhombus, Succeed and Fail are rounded and
//!   end in themselves, and each scope has a circle Start and, where a state ends it, a circle End.
//! - A Parallel or a Map is a cluster, and lines lead to the cluster and away from it: what is in it stands for the
//!   state. In the cluster of a Parallel there is one for each branch.
//! - A line away from a Choice tells its rule in short words, or `Default`; `$.` in front of paths is left out. A line
//!   to a state that catches errors is dashed and tells their names.
//! - Long names are broken into lines; a rule, names of errors and a shape are cut behind 60 characters, with an
//!   ellipsis. A line break or another control character stands as a blank.
//! - With declared shapes a state at which a rule is broken is red, and one to which no data comes grey; a state behind
//!   a broken rule that may stop data isn't grey. Then a line can tell the shape of the data that goes along it, in the
//!   notation of `asl_notation`.
//!
//! A picture grows with the number of states and lines. Web pages limit what they show: GitHub takes up to 500 lines
//! between states, and 50,000 characters.
#![tactic(auto)]

mod dot;
mod drawing;
mod flows;
mod graphing;
mod known;
mod label;
mod lines;
mod mermaid;
mod order;
mod page;
mod picture;
mod rules;
mod scopes;
mod words;

pub use graphing::{Drawn, graph_texts};
pub use picture::Format;
