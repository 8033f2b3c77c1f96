//! Declared shapes and certificates: what a user declares of a machine's input and tasks, the shapes that are to be
//! checked, and how both are read from trees and written as trees.
//!
//! The shapes of a certificate are read into a table, where each distinct one stands once; [`number_certificate`] and
//! [`expand_certificate`] lead there and back. A certificate may list shapes, and then have references to them.
//!
//! A shape of several kinds is spelled with a list of types. It may stand among declared shapes, which have no version,
//! and in a certificate of version 2, but in none of version 1. [`Certificate::version`] and
//! [`NumberedCertificate::version`] tell which version is written. Each plain shape that is answered is proper.
#![tactic(auto)]

mod certificates;
mod declarations;
mod field_numbers;
mod fields;
mod listed;
mod listing;
mod numbering;
mod records;
mod refusals;
mod version;
mod writing;
mod writing_numbered;

pub use certificates::{read_certificate, read_numbered, read_version};
pub use declarations::read_declared;
pub use listing::Listing;
pub use numbering::{expand_certificate, number_certificate};
pub use records::{
    Certificate, Declared, NumberedCertificate, StateNumbers, StateShapes, TaskShapes,
};
pub use refusals::{ReadFault, RecordFault, RecordRefusal};
pub use writing::{write_certificate, write_declared};
pub use writing_numbered::{ShapeWriter, write_numbered};
