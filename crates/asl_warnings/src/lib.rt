//! What is odd in a machine though no rule is broken.
//!
//! [`notices`] lists a [`Notice`] for each oddity, state by state: what no way leads to, by the graph alone; catchers and
//! retriers to which no error comes; and, with a certificate, what no data comes to. A [`Notice::sentence`] tells it. Where a
//! certificate may lack what flows on from a [`Stop`], [`behind_stops`] tells the states of whose data it may not tell all.
#![tactic(auto)]

mod behind;
mod choosing;
mod data;
mod errors;
mod finding;
mod leading;
mod marks;
mod notice;
mod noting;
mod raising;
mod reason;
mod rows;
mod truths;

pub use behind::{Stop, behind_stops};
pub use finding::notices;
pub use notice::Notice;
pub use reason::Reason;
