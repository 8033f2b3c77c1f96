//! Checking a certificate of shapes against a machine and its declared shapes.
//!
//! [`check_numbered`] goes over the steps of the walk through each state ([`asl_state_edges::edges_of`]) and compares what flows
//! at each edge with what stands there, by the numbers of the certificate's table; [`check`] does so for a certificate with
//! shapes of its own. Of each name that has a broken rule the first is told, as a [`Finding`]; [`find_all`] tells all of
//! them, and of a path that may name nothing that path. A comparison that fails has an example there, a tree that flows and
//! lacks the shape that it is compared with, and so has a path that may name nothing, a tree in which it names nothing. What
//! is declared and the certificates, with their readers and writers, are those of [`asl_records`], which this crate shows
//! again: who checks a certificate names no other crate for it.
#![tactic(auto)]

mod checker;
mod comparing;
mod faults;
mod listed;
mod listing;
mod lookups;
mod noting;
mod ordered;
mod standing;
mod states;
mod tasks;
mod telling;
mod verdicts;

pub use asl_records::{
    Certificate, Declared, NumberedCertificate, ReadFault, RecordFault, RecordRefusal,
    StateNumbers, StateShapes, TaskShapes, expand_certificate, number_certificate,
    read_certificate, read_declared, read_numbered, write_certificate, write_declared,
    write_numbered,
};
pub use asl_state_edges::{Broken, FindingFault};
pub use checker::{check, check_numbered, find_all};
pub use ordered::names_in_order;
pub use verdicts::{Finding, Located, MissingPath, Verdict};
